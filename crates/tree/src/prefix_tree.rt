// The prefix tree: where a lookup leads (001, 11.2).
ghost use Rattle.std.specs.Prelude.{◌≡◌, min, ◌<◌, length, get_or, take, MatchOption};
ghost use Rattle.hash.specs.Sha256.{sha256};
ghost use Rattle.tree.specs.LogText.{values_in};
ghost use Rattle.tree.specs.PrefixTree.{bits, parent_over, terminal_value, lookup_root, terminal_fits};
ghost use Rattle.tree.specs.Lookups.{output_bits, terminal_of};

use crate::log_text::sibling_at;
use hash::strings::digest_65;
use lines::layout::Layout;

// What stands at the place a lookup ends in: the leaf of the output looked up, nothing, or another
// leaf.
#[derive(Clone, Copy)]
pub enum Terminal {
    SearchedLeaf {
        commitment: [u8; 32],
    },
    Empty,
    OtherLeaf {
        output: [u8; 32],
        commitment: [u8; 32],
    },
}

// The first byte of a leaf's string, and of a parent's (001, 10.9).
const LEAF: u8 = 0x01;

const PARENT: u8 = 0x02;

// The bits of an output.
const OUTPUT_BITS: usize = 256;

// A bit of an output, each byte's high bit first.
fn bit_at(output: [u8; 32], i: usize) -> u8
    requires { i < output_bits }
    ensures { result ≡ get_or (bits output) i 0 }
{
    (output[i / 8] >> (7 - i % 8)) % 2
}

// The value of what stands at the place (001, 10.9).
fn terminal_value(output: [u8; 32], terminal: Terminal) -> [u8; 32]
    ensures { result ≡ terminal_value output (terminal_of terminal) }
{
    match terminal {
        Terminal::SearchedLeaf { commitment } => digest_65(LEAF, output, commitment),
        Terminal::Empty => [0u8; 32],
        Terminal::OtherLeaf {
            output: other,
            commitment,
        } => digest_65(LEAF, other, commitment),
    }
}

// The value of the parent of a value and its sibling.
fn parent_value(bit: u8, value: [u8; 32], sibling: [u8; 32]) -> [u8; 32]
    ensures { result ≡ sha256 (parent_over bit value sibling) }
{
    if bit == 0 {
        digest_65(PARENT, value, sibling)
    } else {
        digest_65(PARENT, sibling, value)
    }
}

// The number of siblings of a text that a lookup uses: no more than an output has bits.
fn sibling_count(siblings: &[u8]) -> usize
    ensures { result ≡ min (length (values_in siblings.now)) output_bits }
{
    (siblings.len() / Layout::DIGITS).min(OUTPUT_BITS)
}

// The root that a lookup leads to (001, 11.2): siblings are the hex digits of the values along the
// way, joined, the root's first.
pub fn lookup_root(output: [u8; 32], terminal: Terminal, siblings: &[u8]) -> [u8; 32]
    ensures { result ≡ lookup_root output (terminal_of terminal) (values_in siblings.now) }
{
    let mut value = terminal_value(output, terminal);
    for depth in (0..sibling_count(siblings)).rev() {
        let sibling = sibling_at(siblings, depth);
        let parent = parent_value(bit_at(output, depth), value, sibling);
        value = parent;
    }
    value
}

// The number of first bits that two different outputs share.
fn shared_bits(a: [u8; 32], b: [u8; 32]) -> Option<usize>
    ensures { MatchOption result (a ≡ b) (λ n. (take n (bits a) ≡ take n (bits b))
        × (get_or (bits a) n 0 ≡ get_or (bits b) n 0 → ⊥)) }
{
    (0..OUTPUT_BITS).position(|n| bit_at(a, n) != bit_at(b, n))
}

// Whether what stands at the place fits a lookup of so many siblings (001, 11.2): another leaf has
// another output, which shares as many first bits.
pub fn terminal_fits(output: [u8; 32], terminal: Terminal, depth: usize) -> bool
    ensures { result ≡ terminal_fits output (terminal_of terminal) depth }
{
    match terminal {
        Terminal::OtherLeaf { output: other, .. } => {
            shared_bits(output, other).is_some_and(|shared| depth <= shared)
        }
        Terminal::SearchedLeaf { .. } | Terminal::Empty => true,
    }
}
