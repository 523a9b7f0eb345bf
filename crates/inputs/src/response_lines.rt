// The lines of a response, one at a time (paper 01, Response lines). Offsets are counted from the
// line's start.
ghost use Rattle.std.specs.Prelude.{Bool, [], ◌∷◌, ◌≡◌, ℕ};
ghost use Rattle.lists.specs.Choice.{is_some, or_else};
ghost use Rattle.lines.specs.Field.{bytes, exactly, up_to, read_field, read_fields};
ghost use Rattle.lines.specs.Line.{read_line};
ghost use Rattle.lines.specs.Cursor.{fields_from, read_at};
ghost use Rattle.lines.specs.Readings.{read_of};
ghost use Rattle.rules.specs.Response.{search, monitor};
ghost use Rattle.rules.specs.ResponseText.{siblings_field, kind_word, head_form, target_form, nl_form, end_form};
ghost use Rattle.rules.specs.ResponseText.{read_kind_line, read_step, read_entry_line, read_in, read_no, read_nl};
ghost use Rattle.rules.specs.ResponseText.{read_node};
ghost use Rattle.inputs.specs.ResponseLines.{number_after, lookup_form, kind_of, kt_of, head_of, target_of};
ghost use Rattle.inputs.specs.ResponseLines.{kind_found};
ghost use Rattle.inputs.specs.ResponseLines.{next_part_of, last_bytes_of, last_parts_of};
ghost use Rattle.inputs.specs.ResponseLines.{KtStands, TargetStands, NextPartStands, LastBytesStand};
ghost use Rattle.inputs.specs.ResponseLines.{LastPartsStand};

use crate::state::State;
use crate::text_line::after_word;
use lines::cursor::Cursor;
use lines::layout::Word;
use lines::part::Part;

// What a response answers: a search for a version, or monitoring.
#[derive(Clone, Copy, PartialEq, Eq)]
pub enum Kind {
    Search,
    Monitor,
}

// The version, and the fields that encode opening and value.
#[derive(Clone, Copy)]
pub struct Target {
    pub version: u32,
    pub opening: Part,
    pub value: Part,
}

// What a response found: of a search its target.
#[derive(Clone, Copy)]
pub enum Finding {
    Search(Target),
    Monitor,
}

// A first line: the kind, and the fields that encode identifier and label.
#[derive(Clone, Copy)]
pub struct KtLine {
    pub kind: Kind,
    pub identifier: Part,
    pub label: Part,
}

impl Kind {
    // The second word of a first line of the kind.
    fn second_word(self) -> &'static [u8]
        ensures { result.now ≡ kind_word (kind_of self) }
    {
        match self {
            Kind::Search => &Word::SEARCH,
            Kind::Monitor => &Word::MONITOR,
        }
    }
}

impl Finding {
    // The kind of the response.
    pub fn kind(self) -> Kind
        ensures { result ≡ kind_found self }
    {
        match self {
            Finding::Search(_) => Kind::Search,
            Finding::Monitor => Kind::Monitor,
        }
    }
}

impl Target {
    // The length of an opening (001, 15.1).
    pub const OPENING: usize = 16;

    // The longest value.
    pub const VALUE: usize = 1024;
}

impl KtLine {
    // The length of an identifier.
    pub const IDENTIFIER: usize = 16;
}

// The lengths of a hash and of a VRF output.
const HASH: usize = 32;

const VRF_OUTPUT: usize = 32;

// The most siblings of a lookup.
const SIBLINGS: usize = 255;

// A first line, of a search or of monitoring.
pub(crate) fn kt_line(l: &[u8]) -> Option<KtLine>
    ensures read { kt_of l.now result
        ≡ or_else (read_kind_line search l.now) (read_kind_line monitor l.now) }
    ensures stands { KtStands l.now result }
{
    kind_line(l, Kind::Search).or_else(|| kind_line(l, Kind::Monitor))
}

// A `head` line: n.
pub(crate) fn head_line(l: &[u8]) -> Option<u64>
    ensures { head_of result ≡ read_line head_form l.now }
{
    let (size, next) = number_after(l, &Word::HEAD, u64::MAX)?;
    (l.len() < next.at).then_some(size)
}

// A `target` line.
pub(crate) fn target_line(l: &[u8]) -> Option<Target>
    ensures read { target_of l.now result ≡ read_line target_form l.now }
    ensures stands { TargetStands l.now result }
{
    let (version, next) = number_after(l, &Word::TARGET, u32::MAX as u64)?;
    let (opening, value) = last_parts(l, next, Target::OPENING, Target::VALUE)?;
    Some(Target {
        version: version as u32,
        opening,
        value,
    })
}

// Whether a line is a `step` line.
pub(crate) fn is_step(l: &[u8]) -> bool
    ensures { result ≡ is_some (read_step l.now) }
{
    number_after(l, &Word::STEP, u32::MAX as u64)
        .and_then(|(_, next)| last_bytes(l, next))
        .is_some_and(|(length, _)| length == 0 || length == HASH)
}

// Whether it is an `entry` line.
pub(crate) fn is_entry(l: &[u8]) -> bool
    ensures { result ≡ is_some (read_entry_line l.now) }
{
    number_after(l, &Word::ENTRY, u64::MAX)
        .and_then(|(_, next)| next.number(l, u64::MAX))
        .and_then(|(_, next)| last_bytes(l, next))
        .is_some_and(|(length, _)| length == HASH)
}

// Whether it is an `in`, `no` or `nl` line.
pub(crate) fn is_lookup(l: &[u8]) -> bool
    ensures { result ≡ is_some
        (or_else (read_in l.now) (or_else (read_no l.now) (read_nl l.now))) }
{
    is_plain_lookup(l, &Word::IN) || is_plain_lookup(l, &Word::NO) || is_leaf_lookup(l)
}

// Whether it is a `node` line.
pub(crate) fn is_node(l: &[u8]) -> bool
    ensures { result ≡ is_some (read_node l.now) }
{
    after_word(l, &Word::NODE)
        .and_then(|next| last_bytes(l, next))
        .is_some_and(|(length, _)| length == HASH)
}

// Whether it is the `end` line.
pub(crate) fn is_end(l: &[u8]) -> bool
    ensures { result ≡ is_some (read_line end_form l.now) }
{
    after_word(l, &Word::END).is_some_and(|next| l.len() < next.at)
}

// A first line of one kind.
fn kind_line(l: &[u8], kind: Kind) -> Option<KtLine>
    ensures read { kt_of l.now result ≡ read_kind_line (kind_of kind) l.now }
    ensures stands { KtStands l.now result }
{
    let at_kind = after_word(l, &Word::KT)?;
    let next = at_kind.word(l, kind.second_word())?;
    let (identifier, label) = last_parts(l, next, KtLine::IDENTIFIER, State::LABEL)?;
    Some(KtLine {
        kind,
        identifier,
        label,
    })
}

// Whether a line is a word, a version and siblings: `in` and `no` lines are.
fn is_plain_lookup(l: &[u8], word: &[u8]) -> bool
    ensures { result ≡ is_some (read_line (lookup_form word.now) l.now) }
{
    number_after(l, word, u32::MAX as u64).is_some_and(|(_, next)| ends_with_siblings(l, next))
}

// Whether it is an `nl` line: a word, a version, a VRF output, a commitment and siblings.
fn is_leaf_lookup(l: &[u8]) -> bool
    ensures { result ≡ is_some (read_line nl_form l.now) }
{
    number_after(l, &Word::NL, u32::MAX as u64)
        .and_then(|(_, next)| next_part(l, next, VRF_OUTPUT))
        .and_then(|(_, next)| next_part(l, next, HASH))
        .is_some_and(|(_, next)| ends_with_siblings(l, next))
}

// Whether siblings are the last field, from a cursor on.
fn ends_with_siblings(l: &[u8], c: Cursor) -> bool
    ensures { result ≡ is_some (read_fields (siblings_field ∷ []) (fields_from l.now c.at)) }
{
    last_bytes(l, c).is_some_and(|(length, _)| length % HASH == 0 && length <= SIBLINGS * HASH)
}

// The number that follows the word with which a line begins. Inlined, so that the word is known:
// many short lines are read by it.
#[inline(always)]
fn number_after(l: &[u8], word: &[u8], bound: u64) -> Option<(u64, Cursor)>
    ensures { read_of result ≡ number_after word.now bound l.now }
{
    after_word(l, word)?.number(l, bound)
}

// The field at a cursor as a byte string of a certain length, by the part that it fills.
fn next_part(l: &[u8], c: Cursor, wanted: usize) -> Option<(Part, Cursor)>
    ensures read { next_part_of l.now result
        ≡ read_at (read_field (exactly wanted)) l.now c.at }
    ensures stands { NextPartStands l.now result }
{
    let (length, next) = c.bytes(l)?;
    if length != wanted {
        return None;
    }
    let part = Part {
        start: c.at,
        stop: next.at - 1,
    };
    Some((part, next))
}

// The field at a cursor as a byte string with which a line ends, by that string's length and the
// part that the field fills; whoever asks says which lengths fit.
pub(crate) fn last_bytes(l: &[u8], c: Cursor) -> Option<(usize, Part)>
    ensures read { (fits : ℕ → Bool)
        → last_bytes_of l.now fits result
        ≡ read_fields (bytes fits ∷ []) (fields_from l.now c.at) }
    ensures stands { LastBytesStand l.now result }
{
    let (length, next) = c.bytes(l)?;
    if next.at <= l.len() {
        return None;
    }
    let part = Part {
        start: c.at,
        stop: next.at - 1,
    };
    Some((length, part))
}

// The fields from a cursor on as two byte strings with which the line ends: the first of a certain
// length, the second not too long.
fn last_parts(l: &[u8], c: Cursor, wanted: usize, longest: usize) -> Option<(Part, Part)>
    ensures read { last_parts_of l.now result
        ≡ read_fields (exactly wanted ∷ up_to longest ∷ []) (fields_from l.now c.at) }
    ensures stands { LastPartsStand l.now result }
{
    let (first, next) = next_part(l, c, wanted)?;
    let (length, second) = last_bytes(l, next)?;
    if longest < length {
        return None;
    }
    Some((first, second))
}
