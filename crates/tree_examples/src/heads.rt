// Heads of a log: roots, values of full subtrees, numbers of nodes.
use lines::hex::read_digest;
use output_lines::{bytes, end, numbers, whether, word};
use tree::log_head::{log_head, nodes_asked};

// The state's block with two values.
fn block(first: [u8; 32], second: [u8; 32]) -> [u8; 1280] {
    let mut b = [0u8; 1280];
    b[..32].copy_from_slice(&first);
    b[32..64].copy_from_slice(&second);
    b
}

// The first three values of a block.
fn first_three(rt: &impl Print, values: &[u8; 1280]) {
    bytes(rt, &values[..96]);
}

// Of a log of 14 entries: a name, a root, whether the kept values were met, and the first three
// values.
fn head(
    rt: &impl Print,
    name: &[u8],
    entries: &[u8],
    nodes: &[u8],
    kept_size: u64,
    kept: [u8; 1280],
) {
    let mut values = [0u8; 1280];
    let h = log_head(entries, nodes, 14, kept_size, &kept, &mut values);
    word(rt, name);
    let root = h.root;
    bytes(rt, &root);
    whether(rt, h.met);
    first_three(rt, &values);
    end(rt);
}

// The frontier of 14 entries, with lookups between them, at first with nothing kept, then with the
// values of the first 10 entries, then with one of these forged; and a log that is smaller than
// what is kept.
pub(crate) fn of_fourteen(rt: &impl Print) {
    let entries =
        b"entry\t7\t7007\t4658bc8fe9221673e441f3bcd18c4a46b74b3f6211ea645b03a0d01fef693142\nin\t0\t-\nentry\t11\t11007\t201787f54746f483587e629c9831064dd486fa6bc6915aa6f4d3e54745bf1025\nno\t1\t-\nnl\t2\t-\nentry\t13\t13007\t76141912215c282b3b6e79e8fc30af441db441144ecc8e4a1cb826fa77e2ee44\n";
    let all_nodes =
        b"node\t29b717f5437b753571ce9f206c7ae2f4f73a34b685c7da8981824911cabe8781\nnode\tb7ecbc58b2033e8717dc5bded58c2e7df9b495ff0e82e028be7b9dece3800135\nnode\t067f40441040e44f1c27345eca388f650983ea9a32769a8391b90faec3766ad8\nnode\t2c7288d9c39edb3021e568b94deacf6b2dc252091d0a5c58e9b84130f215c30c\nnode\te73428a1f05267e37756fe3ee66e414253776ef5c6f15cc899dff77d2c8fe6cf\nnode\t38cf9372acc88cb21451f4473b190fc947af4797a956f2f95b5cd1db55fbd32b\n";
    let nodes =
        b"node\t29b717f5437b753571ce9f206c7ae2f4f73a34b685c7da8981824911cabe8781\nnode\tb7ecbc58b2033e8717dc5bded58c2e7df9b495ff0e82e028be7b9dece3800135\nnode\t067f40441040e44f1c27345eca388f650983ea9a32769a8391b90faec3766ad8\nnode\te73428a1f05267e37756fe3ee66e414253776ef5c6f15cc899dff77d2c8fe6cf\nnode\t38cf9372acc88cb21451f4473b190fc947af4797a956f2f95b5cd1db55fbd32b\n";
    let (Some(first), Some(second)) = (
        read_digest(b"b4feeb63ac6643dd035e468bab6ec2096462253d325d61568f5c3f9f2fe220e6"),
        read_digest(b"2c7288d9c39edb3021e568b94deacf6b2dc252091d0a5c58e9b84130f215c30c"),
    ) else {
        return;
    };
    head(rt, b"head-14-from-0", entries, all_nodes, 0, [0u8; 1280]);
    head(
        rt,
        b"head-14-from-10",
        entries,
        nodes,
        10,
        block(first, second),
    );
    head(
        rt,
        b"head-14-forged",
        entries,
        nodes,
        10,
        block(second, second),
    );
    head(
        rt,
        b"head-14-from-15",
        entries,
        nodes,
        15,
        block(first, second),
    );
}

// A size, a size kept, and the number of nodes.
fn asked(rt: &impl Print, text: &[u8], tree_size: u64, kept_size: u64) {
    word(rt, b"nodes");
    let nodes = nodes_asked(text, tree_size, kept_size);
    numbers(rt, &[tree_size, kept_size, nodes]);
    end(rt);
}

// Paper 01's two, and the limits of a size: one entry, 2^40 and one more, none; and entries that do
// not rise.
pub(crate) fn nodes(rt: &impl Print) {
    let frontier = b"entry\t7\t\nentry\t11\t\nin\te\nentry\t13\t\n";
    asked(rt, frontier, 14, 0);
    asked(rt, frontier, 14, 10);
    asked(rt, b"entry\t0\t\n", 1, 0);
    asked(rt, b"entry\t1099511627775\t\n", 0x100_0000_0000, 0);
    asked(
        rt,
        b"entry\t1099511627775\t\n",
        0x100_0000_0000,
        0x100_0000_0000,
    );
    asked(rt, b"entry\t1099511627776\t\n", 0x100_0000_0001, 0);
    asked(rt, b"entry\t0\t\n", 0, 0);
    asked(rt, b"entry\t7\t\nentry\t13\t\nentry\t11\t\n", 14, 0);
}
