// The versions looked up in monitoring (paper 01, Ladder, search, monitoring).
ghost use Rattle.std.specs.Prelude.{◌≡◌, ◌≤◌, length};
ghost use Rattle.hash.specs.Bytes.{padded};
ghost use Rattle.tree.specs.Ladder.{ladder_capacity};
ghost use Rattle.tree.specs.SearchTree.{next_from};
ghost use Rattle.rules.specs.Limits.{greatest_version, version_bound};
ghost use Rattle.checks.specs.MonitoredVersions.{not_above, IsLargest};

use tree::ladder::Ladder;
use tree::search_tree::is_right_ancestor;

// Stands for no version: it is above all that are looked up.
// It is no Option: the smallest of plain numbers is taken as they stand, which is plainer.
pub(crate) const NONE: u32 = u32::MAX;

// The pair, by its number, with the largest version of those whose right path holds an entry of a
// log of tree_size entries, if there is one.
// By index: the pair's number is the answer, and positions and versions are two arrays.
pub(crate) fn largest_pair(
    tree_size: u64,
    positions: &[u64],
    versions: &[u32],
    entry: u64,
) -> Option<usize>
    requires { length positions.now ≡ length versions.now }
    ensures { IsLargest tree_size positions.now versions.now entry result }
{
    let mut largest: Option<usize> = None;
    for i in (0..positions.len()).rev() {
        if !is_right_ancestor(tree_size, positions[i], entry) {
            continue;
        }
        if let Some(pair) = largest {
            if versions[i] <= versions[pair] {
                continue;
            }
        }
        largest = Some(i);
    }
    largest
}

// The versions of a version's ladder that are not above it, in their order.
pub(crate) fn versions_not_above(version: u32) -> Ladder
    requires { version ≤ greatest_version }
    ensures { (result.versions ≡ padded ladder_capacity (not_above version))
        × (result.length ≡ length (not_above version)) }
{
    let whole = Ladder::of(version);
    let all = &whole.versions[..whole.length];
    let mut versions = [0u32; Ladder::CAPACITY];
    let mut length: usize = 0;
    for shown in all {
        if *shown <= version {
            versions[length] = *shown;
            length += 1;
        }
    }
    Ladder { versions, length }
}

// The first of these from another version on, or none.
pub(crate) fn next_not_above(version: u32, from: u32) -> u32
    requires { version ≤ greatest_version }
    ensures { result ≡ next_from version_bound (not_above version) from }
{
    let shown = versions_not_above(version);
    let versions = &shown.versions[..shown.length];
    for next in versions {
        if from <= *next {
            return *next;
        }
    }
    NONE
}
