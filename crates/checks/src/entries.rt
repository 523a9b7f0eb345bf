// The entries of a response (paper 01, Ladder, search, monitoring): whether they are as asked, and
// their times.
ghost use Rattle.std.specs.Prelude.{◌≡◌, [], ◌∷◌, ◌≤◌, length, drop, is_some, IfSome};
ghost use Rattle.lists.specs.Lists.{begins, same};
ghost use Rattle.rules.specs.Limits.{tree_size_limit};
ghost use Rattle.inputs.specs.Response.{entries_in, loose_in};
ghost use Rattle.checks.specs.Calls.{offset_bound};
ghost use Rattle.checks.specs.Sections.{EntryLines, AfterLookups};
ghost use Rattle.checks.specs.MonitoredVersions.{ArePairs, ArePairsAsked, shown_at, wanted_by, fit_by};
ghost use Rattle.checks.specs.MonitoredVersions.{IsMarkedFor, IsMarkedBy, AreMarkedBy};
ghost use Rattle.checks.specs.Entries.{versions_of, are_asked, AreTimestamps};

use crate::monitored_versions::{largest_pair, versions_not_above};
use crate::sections::{lookup_version, next_entry, next_lookup};
use crate::timestamps::Timestamps;
use inputs::response_lines::Kind;
use lines::layout::Layout;
use tree::log_text::{position_at, timestamp_at};
use tree::search_tree::next_asked;

// The lookups at an offset: whether their versions are from the front of those wanted, and how many
// they are; the offset after them.
#[derive(Clone, Copy)]
struct LookupsShown {
    begin: bool,
    count: usize,
    next: usize,
}

// The times of the entries, if these are as asked of a log of so many: the frontier and the right
// paths of the positions of pairs, of which a search has none. A search looks up a beginning of its
// ladder in each; monitoring the versions of the pair that counts there, whose mark becomes 0.
// A kind and no closure: monitoring's marks are written in each step, and a closure's clauses would have to say so.
// Pairs are no struct: monitoring's steps take versions alone, and marks, written to, could not go along.
// A loop: which entry is asked next, and whether one is, shows only in it.
pub(crate) fn entries_asked(
    kind: Kind,
    entries: &[u8],
    tree_size: u64,
    kept_size: u64,
    kept_timestamp: u64,
    ladder: &[u32],
    positions: &[u64],
    versions: &[u32],
    marks: &mut [u32],
) -> Option<Timestamps>
    requires lines { EntryLines entries.now }
    requires loose { loose_in entries.now ≡ [] }
    requires short { length entries.now ≤ offset_bound }
    requires many { tree_size ≤ tree_size_limit }
    requires pairs { ArePairsAsked positions.now versions.now marks.old }
    ensures asked { is_some result ≡ are_asked kind ladder.now tree_size positions.now
        versions.now (entries_in entries.now) }
    ensures timestamps { IfSome result
        (AreTimestamps kept_size kept_timestamp (entries_in entries.now)) }
    ensures marks { AreMarkedBy kind tree_size positions.now versions.now
        (is_some result) marks.new }
{
    let mut at: usize = 0;
    let mut from: u64 = 0;
    let mut timestamps = Timestamps::start();
    loop {
        let position = next_asked(tree_size, positions, from);
        if tree_size <= position {
            return (at == entries.len()).then_some(timestamps);
        }
        let first = next_entry(entries, at)?;
        if position_at(entries, at + Layout::ENTRY) != position {
            return None;
        }
        let next = entry_asked(
            kind, entries, first, tree_size, ladder, positions, versions, position, marks,
        )?;
        let timestamp = timestamp_at(entries, at + Layout::ENTRY);
        timestamps = timestamps.next(position, timestamp, kept_size, kept_timestamp);
        at = next;
        from = position + 1;
    }
}

// The offset after the lookups of the entry at a position, which stand at an offset, if they are as
// asked.
fn entry_asked(
    kind: Kind,
    entries: &[u8],
    from: usize,
    tree_size: u64,
    ladder: &[u32],
    positions: &[u64],
    versions: &[u32],
    position: u64,
    marks: &mut [u32],
) -> Option<usize>
    requires lines { EntryLines (drop from entries.now) }
    requires within { from ≤ length entries.now }
    requires pairs { ArePairs positions.now versions.now }
    requires marks { length marks.old ≡ length versions.now }
    ensures asked { is_some result ≡ fit_by kind
        (wanted_by kind ladder.now tree_size positions.now versions.now
        position) (versions_of (loose_in (drop from entries.now))) }
    ensures next { IfSome result (AfterLookups entries.now from) }
    ensures marks { IsMarkedBy kind tree_size positions.now versions.now
        position marks.old marks.new }
{
    match kind {
        Kind::Search => {
            let lookups = lookups_shown(entries, from, ladder);
            (lookups.begin & (0 < lookups.count)).then_some(lookups.next)
        }
        Kind::Monitor => monitored_entry(
            entries, from, tree_size, positions, versions, position, marks,
        ),
    }
}

// The same in monitoring. The mark of the pair whose version is looked up becomes 0.
fn monitored_entry(
    entries: &[u8],
    from: usize,
    tree_size: u64,
    positions: &[u64],
    versions: &[u32],
    position: u64,
    marks: &mut [u32],
) -> Option<usize>
    requires lines { EntryLines (drop from entries.now) }
    requires within { from ≤ length entries.now }
    requires pairs { ArePairs positions.now versions.now }
    requires marks { length marks.old ≡ length versions.now }
    ensures asked { is_some result ≡ same (versions_of (loose_in (drop from entries.now)))
        (shown_at tree_size positions.now versions.now position) }
    ensures next { IfSome result (AfterLookups entries.now from) }
    ensures marks { IsMarkedFor tree_size positions.now versions.now
        position marks.old marks.new }
{
    match largest_pair(tree_size, positions, versions, position) {
        Some(pair) => {
            marks[pair] = 0;
            let shown = versions_not_above(versions[pair]);
            let wanted = shown.versions;
            let length = shown.length;
            let lookups = lookups_shown(entries, from, &wanted[..length]);
            (lookups.begin & (lookups.count == length)).then_some(lookups.next)
        }
        None => {
            let lookups = lookups_shown(entries, from, &versions[..0]);
            (lookups.count == 0).then_some(lookups.next)
        }
    }
}

// The lookups at an offset, whose versions are compared with those wanted.
fn lookups_shown(entries: &[u8], from: usize, wanted: &[u32]) -> LookupsShown
    requires lines { EntryLines (drop from entries.now) }
    requires within { from ≤ length entries.now }
    ensures begin { result.begin ≡ begins (versions_of (loose_in (drop from entries.now)))
        wanted.now }
    ensures count { result.count ≡ length (loose_in (drop from entries.now)) }
    ensures next { AfterLookups entries.now from result.next }
{
    let mut at = from;
    let mut count: usize = 0;
    let mut begin = true;
    while let Some((stop, next)) = next_lookup(entries, at) {
        begin &= is_at(wanted, count, lookup_version(&entries[at..stop]));
        count += 1;
        at = next;
    }
    LookupsShown {
        begin,
        count,
        next: at,
    }
}

// Whether a version stands at an index among those wanted.
pub(crate) fn is_at(wanted: &[u32], i: usize, version: u32) -> bool
    ensures { result ≡ begins (version ∷ []) (drop i wanted.now) }
{
    wanted.get(i) == Some(&version)
}
