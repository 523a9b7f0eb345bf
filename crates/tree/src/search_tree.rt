// The search tree over the entries of a log: its root, the frontier and the right paths.
ghost use Rattle.std.specs.Prelude.{◌≡◌, ◌+◌, ◌-◌, ◌*◌, ◌/◌, ◌%◌, ◌^◌, ◌<◌, eqb, length};
ghost use Rattle.lists.specs.Lists.{any, last_or};
ghost use Rattle.hash.specs.Bytes.{padded};
ghost use Rattle.tree.specs.SearchTree as Tree;

// The root of a log of tree_size entries (004, 4.3.1); 0 for an empty log.
pub fn root(tree_size: u64) -> u64
    ensures { result ≡ Tree.root tree_size }
{
    if tree_size == 0 {
        return 0;
    }
    power(tree_size) - 1
}

// The largest power of two not above x.
pub(crate) fn power(x: u64) -> u64
    requires { 0 < x }
    ensures { result ≡ Tree.power x }
{
    1u64 << (63 - x.leading_zeros())
}

// The entries of a frontier from left to right with zeros after them, and how many they are.
// Beside Ladder, for the reason given there.
#[derive(Clone, Copy)]
pub struct Frontier {
    pub positions: [u64; Frontier::CAPACITY],
    pub length: usize,
}

impl Frontier {
    // The most entries that the frontier of a log has.
    pub const CAPACITY: usize = 64;

    // The frontier of a log of tree_size entries (004, 4.3.1): one entry for each one among the
    // binary digits of tree_size.
    pub fn of(tree_size: u64) -> Frontier
        ensures { (result.positions ≡ padded Tree.frontier_capacity (Tree.frontier tree_size))
            × (result.length ≡ length (Tree.frontier tree_size)) }
    {
        let length = tree_size.count_ones() as usize;
        let mut positions = [0u64; Frontier::CAPACITY];
        let mut from: u64 = 0;
        for slot in positions[..length].iter_mut() {
            let position = next_on_frontier(tree_size, from);
            *slot = position;
            from = position + 1;
        }
        Frontier { positions, length }
    }
}

// Whether x is on the right path of the entry p in a log of tree_size entries (paper 01, Trees).
pub fn is_right_ancestor(tree_size: u64, p: u64, x: u64) -> bool
    ensures { result ≡ any (eqb x) (Tree.right_ancestors tree_size p) }
{
    x < tree_size && next_right_ancestor(tree_size, p, x) == x
}

// The first entry from x on that is on the right path of p in a log of tree_size entries; tree_size
// where none is left.
// tree_size for none, as next_from has it here and below: the least of several is taken as it stands.
pub fn next_right_ancestor(tree_size: u64, p: u64, x: u64) -> u64
    ensures { result ≡ Tree.next_from tree_size (Tree.right_ancestors tree_size p) x }
{
    if tree_size <= p {
        return tree_size;
    }
    right_ancestor_from(tree_size, p, x.max(p + 1))
}

// The same for x above p: x with the digits below the highest in which p and x differ replaced by
// ones, if that is below tree_size.
fn right_ancestor_from(tree_size: u64, p: u64, x: u64) -> u64
    requires { p < x }
    ensures { result ≡ Tree.next_from tree_size (Tree.right_ancestors tree_size p) x }
{
    block_end(parting(p, x), x).min(tree_size)
}

// The last entry on the right path of p in a log of tree_size entries; p where that is empty. It is
// p with the digits below the highest in which p and tree_size differ replaced by ones.
pub fn last_right_ancestor(tree_size: u64, p: u64) -> u64
    ensures { result ≡ last_or p (Tree.right_ancestors tree_size p) }
{
    if tree_size <= p {
        return p;
    }
    block_end(parting(p, tree_size), p)
}

// The first entry from x on that is on the frontier of a log of tree_size entries; tree_size where
// none is left. The frontier begins with the root. After it, the next entry is x with the digits
// below the highest in which x and tree_size differ replaced by ones.
pub fn next_on_frontier(tree_size: u64, x: u64) -> u64
    ensures { result ≡ Tree.next_from tree_size (Tree.frontier tree_size) x }
{
    if tree_size <= x {
        return tree_size;
    }
    let first = root(tree_size);
    if x <= first {
        return first;
    }
    block_end(parting(x, tree_size), x)
}

// The first entry from x on that is on the frontier of a log of tree_size entries or on the right
// path of one of the positions; tree_size where none is left.
pub fn next_asked(tree_size: u64, positions: &[u64], x: u64) -> u64
    ensures { result ≡ Tree.next_from tree_size
        (Tree.frontier_and_paths tree_size positions.now) x }
{
    let mut next = next_on_frontier(tree_size, x);
    for position in positions {
        next = next.min(next_right_ancestor(tree_size, *position, x));
    }
    next
}

// The number of the highest binary digit in which x and y differ; the digits are counted from 0 at
// the low end.
fn parting(x: u64, y: u64) -> u32
    requires { x < y }
    ensures { (result < 64) × (x / 2 ^ result % 2 ≡ 0) × (y / 2 ^ result ≡ x / 2 ^ result + 1) }
{
    63 - (x ^ y).leading_zeros()
}

// p with its k low digits replaced by ones.
fn block_end(k: u32, p: u64) -> u64
    requires { k < 64 }
    ensures { result ≡ p / 2 ^ k * 2 ^ k + (2 ^ k - 1) }
{
    p | ((1u64 << k) - 1)
}
