// The lines of a response's sections, one at a time, once the response has been read: of each line
// it is known what it is.
ghost use Rattle.std.specs.Prelude.{◌≡◌, [], ◌≤◌, length, drop};
ghost use Rattle.rules.specs.Response.{Lookup, is_included};
ghost use Rattle.inputs.specs.Response.{loose_in};
ghost use Rattle.checks.specs.Sections.{StepLines, EntryLines, IsNextStep, IsNextEntry, IsNextLookup};
ghost use Rattle.checks.specs.Sections.{OfLookup};

use lines::cursor::Cursor;
use lines::layout::Layout;

// A step: its version, and the offset of the digits of its commitment if it has one; the offset of
// the next line.
#[derive(Clone, Copy)]
pub(crate) struct NextStep {
    pub version: u32,
    pub commitment: Option<usize>,
    pub next: usize,
}

// The step at an offset, if one stands there.
pub(crate) fn next_step(steps: &[u8], at: usize) -> Option<NextStep>
    requires lines { StepLines (drop at steps.now) }
    requires within { at ≤ length steps.now }
    ensures { IsNextStep steps.now at result }
{
    let (stop, next) = Cursor { at }.line(steps)?;
    let line = &steps[at..stop];
    let (value, field) = Cursor { at: Layout::STEP }.number(line, u32::MAX as u64)?;
    let committed = line.len() == field.at + Layout::DIGITS;
    Some(NextStep {
        version: value as u32,
        commitment: committed.then_some(at + field.at),
        next: next.at,
    })
}

// The offset after the line of the entry at an offset where no lookup stands, if an entry does.
// Text and offset are no struct: it would be made anew at each line, and both facts of it proved there.
pub(crate) fn next_entry(entries: &[u8], at: usize) -> Option<usize>
    requires lines { EntryLines (drop at entries.now) }
    requires loose { loose_in (drop at entries.now) ≡ [] }
    requires within { at ≤ length entries.now }
    ensures { IsNextEntry entries.now at result }
{
    let (_, next) = Cursor { at }.line(entries)?;
    Some(next.at)
}

// Where the line of the lookup at an offset stops, and the offset of the next line, if a lookup
// stands there, where an entry may stand too.
pub(crate) fn next_lookup(entries: &[u8], at: usize) -> Option<(usize, usize)>
    requires lines { EntryLines (drop at entries.now) }
    requires within { at ≤ length entries.now }
    ensures { IsNextLookup entries.now at result }
{
    if entries.len() <= at || entries[at] == Layout::ENTRY_LETTER {
        return None;
    }
    let (stop, next) = Cursor { at }.line(entries)?;
    Some((stop, next.at))
}

// The version of a lookup line.
pub(crate) fn lookup_version(line: &[u8]) -> u32
    ensures { OfLookup line.now (λ (l : Lookup). l.version) result }
{
    let start = Cursor { at: Layout::LOOKUP };
    match start.number(line, u32::MAX as u64) {
        Some((value, _)) => value as u32,
        None => 0,
    }
}

// Whether a lookup line says that its version is there.
pub(crate) fn is_included(line: &[u8]) -> bool
    ensures { OfLookup line.now (λ (l : Lookup). is_included l.result) result }
{
    line.first() == Some(&Layout::IN_LETTER)
}
