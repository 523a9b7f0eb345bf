// Lookups in a prefix tree of three outputs: one begins with the bits 00, one with 01, one with 10,
// and nothing stands at 11.
use hash::sha256::digest;
use output_lines::{end, show, whether, word};
use tree::prefix_tree::{Terminal, lookup_root, terminal_fits};

// An output by its first byte.
fn output(first: u8) -> [u8; 32] {
    let mut o = [0u8; 32];
    o[0] = first;
    o[31] = 1;
    o
}

fn leaf(output: [u8; 32], commitment: [u8; 32]) -> Terminal {
    Terminal::OtherLeaf { output, commitment }
}

fn searched_leaf(commitment: [u8; 32]) -> Terminal {
    Terminal::SearchedLeaf { commitment }
}

// A name, and the root that a lookup leads to.
fn leads(rt: &impl Print, name: &[u8], output: [u8; 32], terminal: Terminal, siblings: &[u8]) {
    show(rt, name, &lookup_root(output, terminal, siblings));
}

// A name, and whether what stands at the place fits a lookup of so many siblings.
fn fits(rt: &impl Print, name: &[u8], output: [u8; 32], terminal: Terminal, depth: usize) {
    word(rt, name);
    whether(rt, terminal_fits(output, terminal, depth));
    end(rt);
}

// The leaf, an empty place and another leaf lead to one root; another commitment does not.
pub(crate) fn in_one_tree(rt: &impl Print) {
    let right_and_second =
        b"e3f5530c28297eb98b79926f9a00c7e9d21c4100ddac4fa1952af76be816152b429e71c6bdb725a4545b7d4fc82188cffd0824667f13c5642b3f8c7afbc84538";
    let left_and_third =
        b"3ac9d53074ffb5d6bbfd4eee87a19e02d6bc3c2b357d721b9e3700a02027bf9fc75b549ce80945e9373b5626e892cd1bbf42f0862e953be71e74539d78ceb7b7";
    let left_and_empty =
        b"3ac9d53074ffb5d6bbfd4eee87a19e02d6bc3c2b357d721b9e3700a02027bf9f0000000000000000000000000000000000000000000000000000000000000000";
    leads(
        rt,
        b"in",
        output(0x00),
        searched_leaf(digest(b"commitment 0")),
        right_and_second,
    );
    leads(
        rt,
        b"in-other-commitment",
        output(0x00),
        searched_leaf(digest(b"commitment 1")),
        right_and_second,
    );
    leads(rt, b"no", output(0xc0), Terminal::Empty, left_and_third);
    leads(
        rt,
        b"nl",
        output(0x81),
        leaf(output(0x80), digest(b"commitment 2")),
        left_and_empty,
    );
}

// Another leaf shares the first seven bits and no more; the searched one is no other.
pub(crate) fn other_leaves(rt: &impl Print) {
    let third = digest(b"commitment 2");
    fits(
        rt,
        b"nl-depth-2",
        output(0x81),
        leaf(output(0x80), third),
        2,
    );
    fits(
        rt,
        b"nl-depth-7",
        output(0x81),
        leaf(output(0x80), third),
        7,
    );
    fits(
        rt,
        b"nl-depth-8",
        output(0x81),
        leaf(output(0x80), third),
        8,
    );
    fits(rt, b"nl-itself", output(0x80), leaf(output(0x80), third), 2);
}

// Lookups without siblings, with as many as a response may have, and with more than an output has
// bits.
pub(crate) fn depths(rt: &impl Print) {
    let siblings = [b'0'; 16448];
    leads(
        rt,
        b"in-depth-0",
        output(0x00),
        searched_leaf(digest(b"commitment 0")),
        b"",
    );
    leads(rt, b"no-depth-0", output(0x00), Terminal::Empty, b"-");
    leads(
        rt,
        b"in-depth-255",
        output(0x00),
        searched_leaf(digest(b"commitment 0")),
        &siblings[0..16320],
    );
    leads(
        rt,
        b"in-depth-257",
        output(0x00),
        searched_leaf(digest(b"commitment 0")),
        &siblings,
    );
}
