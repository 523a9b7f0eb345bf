// The lookups of a response (paper 01, Sixteen numbers: 12 and 13): whether they reach the prefix
// roots, and what they show.
ghost use Rattle.std.specs.Prelude.{◌≡◌, [], ◌≤◌, length, drop};
ghost use Rattle.lists.specs.Lists.{Bytes};
ghost use Rattle.rules.specs.Limits.{label_limit};
ghost use Rattle.inputs.specs.declared.response_lines.Finding.TheVariants.{Search, Monitor};
ghost use Rattle.inputs.specs.Response.{entries_in, loose_in};
ghost use Rattle.checks.specs.Calls.{offset_bound, Triable, IsJudged};
ghost use Rattle.checks.specs.Sections.{EntryLines, AfterLookups};
ghost use Rattle.checks.specs.Lookups.{no_lookups, IsSummary};
ghost use Rattle.checks.specs.Lookups.{IsNextSummary, no_entries, AreResults, AreNextResults, judged_by};

use crate::commitment::commitment;
use crate::entries::is_at;
use crate::lookup_line::lookup_passes;
use crate::readings::Call;
use crate::sections::{is_included, lookup_version, next_entry, next_lookup};
use crate::sought::Sought;
use crate::steps::Commitments;
use inputs::refusal::Refusal;
use inputs::response_lines::{Finding, Kind, Target};
use lines::layout::Layout;
use tree::ladder::Ladder;
use tree::log_text::{position_at, prefix_root_at};

// What is known of the lookups of an entry so far: its prefix root, and whether all that were tried
// reach it; how many they are, and whether their versions are from the front of the ladder; whether
// each is included exactly where its version is not above the one sought, whether they end early,
// and whether all are included.
#[derive(Clone, Copy)]
struct Summary {
    root: [u8; 32],
    reached: bool,
    count: usize,
    begin: bool,
    fits: bool,
    early: bool,
    included: bool,
}

// The summary of an entry's lookups, and the offset after them.
#[derive(Clone, Copy)]
struct Summed {
    summary: Summary,
    next: usize,
}

// What is known of the entries so far: whether all lookups that were tried reach their roots; the
// position of the first complete entry; whether the others before it end early, and all after it are
// complete; whether all lookups are included.
#[derive(Clone, Copy)]
struct Results {
    reached: bool,
    first: Option<u64>,
    fits: bool,
    included: bool,
}

// Tries 12 and 13 on a call to which none of 6 to 11 applies, whose commitments stand at the
// offsets given; answers the position of a search's first complete entry.
// The label's limit is a clause: a state may hold a longer label, so that it is no fact of its type.
pub(crate) fn try_12_and_13(
    text: &[u8],
    call: Call,
    label: &[u8],
    outputs: &[u8],
    commitments: &[u32; Commitments::RECORDS],
) -> Result<u64, Refusal>
    requires possible { Triable text.now call outputs.now }
    requires label { length label.now ≤ label_limit }
    ensures { IsJudged text.now call label.now outputs.now
        commitments.now result }
{
    match call.response.finding {
        Finding::Search(target) => search_judged(text, call, target, label, outputs, commitments),
        Finding::Monitor => monitoring_judged(text, call, outputs, commitments),
    }
}

// The same of a search for a target: short entries come first, then whole ones, the last one whole.
fn search_judged(
    text: &[u8],
    call: Call,
    target: Target,
    label: &[u8],
    outputs: &[u8],
    commitments: &[u32; Commitments::RECORDS],
) -> Result<u64, Refusal>
    requires possible { Triable text.now call outputs.now }
    requires finding { call.response.finding ≡ Search target }
    requires label { length label.now ≤ label_limit }
    ensures { IsJudged text.now call label.now outputs.now
        commitments.now result }
{
    let version = target.version;
    let opening = target.opening.of(text);
    let value = target.value.of(text);
    let whole = Ladder::of(version);
    let sought = Sought {
        kind: Kind::Search,
        version,
        commitment: commitment(opening, label, value),
        ladder: &whole.versions[..whole.length],
        outputs,
        steps: call.response.steps.part.of(text),
        offsets: commitments,
    };
    let results = entries_judged(call.response.entries.part.of(text), sought);
    let first = if results.fits { results.first } else { None };
    first_refusal(results.reached, first)
}

// The same of monitoring: every lookup is included. There is no position to answer: it is 0, and no
// Option, which the new map of a search would have to open although the kind has told that it is there.
fn monitoring_judged(
    text: &[u8],
    call: Call,
    outputs: &[u8],
    commitments: &[u32; Commitments::RECORDS],
) -> Result<u64, Refusal>
    requires possible { Triable text.now call outputs.now }
    requires finding { call.response.finding ≡ Monitor }
    ensures { (label : Bytes) → IsJudged text.now call label outputs.now
        commitments.now result }
{
    // Zeros and no Option: one step sums the lookups of both kinds, and would open it in each to no end here.
    let sought = Sought {
        kind: Kind::Monitor,
        version: 0,
        commitment: [0u8; 32],
        ladder: &[],
        outputs,
        steps: call.response.steps.part.of(text),
        offsets: commitments,
    };
    let results = entries_judged(call.response.entries.part.of(text), sought);
    first_refusal(results.reached, results.included.then_some(0))
}

// 12 where lookups do not reach their roots, else 13 where they do not show what they must; else
// the position that they show.
fn first_refusal(reached: bool, shown: Option<u64>) -> Result<u64, Refusal>
    ensures { result ≡ judged_by reached shown }
{
    if !reached {
        return Err(Refusal::Lookup);
    }
    shown.ok_or(Refusal::Ladder)
}

// The results of the entries.
fn entries_judged(entries: &[u8], sought: Sought) -> Results
    requires lines { EntryLines entries.now }
    requires loose { loose_in entries.now ≡ [] }
    requires short { length entries.now ≤ offset_bound }
    ensures { AreResults sought.entry (entries_in entries.now) result }
{
    let mut at: usize = 0;
    let mut results = Results::start();
    while let Some(first) = next_entry(entries, at) {
        let root = prefix_root_at(entries, at + Layout::ENTRY);
        let position = position_at(entries, at + Layout::ENTRY);
        let summed = lookups_judged(entries, first, root, sought);
        results = results.next(position, summed.summary, sought.ladder.len());
        at = summed.next;
    }
    results
}

impl Results {
    // No entry so far.
    #[tactic(auto, unfolding(crate::specs::Lookups::no_entries))]
    fn start() -> Results
        ensures { result ≡ no_entries }
    {
        Results {
            reached: true,
            first: None,
            fits: true,
            included: true,
        }
    }

    // An entry more, at a position, of whose ladder so many versions are wanted.
    fn next(self, position: u64, entry: Summary, wanted: usize) -> Results
        ensures { AreNextResults position entry wanted self result }
    {
        let complete = entry.begin & (entry.count == wanted) & entry.fits;
        let before = self.first.is_none();
        Results {
            reached: self.reached & entry.reached,
            first: self.first.or(complete.then_some(position)),
            fits: self.fits & (complete | (before & entry.early)),
            included: self.included & entry.included,
        }
    }
}

// The lookups at an offset, of an entry with a prefix root.
fn lookups_judged(entries: &[u8], from: usize, root: [u8; 32], sought: Sought) -> Summed
    requires lines { EntryLines (drop from entries.now) }
    requires within { from ≤ length entries.now }
    requires short { length entries.now ≤ offset_bound }
    ensures summary { IsSummary sought.entry root (loose_in (drop from entries.now)) result.summary }
    ensures next { AfterLookups entries.now from result.next }
{
    let mut at = from;
    let mut summary = Summary::start(root);
    while let Some((stop, next)) = next_lookup(entries, at) {
        summary = summary.next(&entries[at..stop], sought);
        at = next;
    }
    Summed { summary, next: at }
}

impl Summary {
    // An entry with a prefix root, and no lookup so far.
    #[tactic(auto, unfolding(crate::specs::Lookups::no_lookups))]
    fn start(root: [u8; 32]) -> Summary
        ensures { result ≡ no_lookups root }
    {
        Summary {
            root,
            reached: true,
            count: 0,
            begin: true,
            fits: true,
            early: false,
            included: true,
        }
    }

    // A lookup line more.
    fn next(self, line: &[u8], sought: Sought) -> Summary
        requires few { self.count ≤ offset_bound }
        ensures { IsNextSummary sought.entry line.now self result }
    {
        let version = lookup_version(line);
        let included = is_included(line);
        let root = self.root;
        let reached = lookup_passes(sought, line, version, included, root);
        let not_above = version <= sought.version;
        Summary {
            root,
            reached: self.reached & reached,
            count: self.count + 1,
            begin: self.begin & is_at(sought.ladder, self.count, version),
            fits: self.fits & (included == not_above),
            early: self.fits & not_above & !included,
            included: self.included & included,
        }
    }
}
