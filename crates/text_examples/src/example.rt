// An example: a line of fields with a tab between two. In its texts `\t`, `\n` and `\r` stand for a
// tab, a newline and a return. A line whose first field is not empty is a heading: that field is
// the number of the kind of the examples below it.
use crate::kind::Kind;
use crate::{fields, given, responses, states, writers};
use lines::number::read_number;
use output_lines::{end, text, word};

// The columns.
const KIND: usize = 0;

const NAME: usize = 1;

const OFFSET: usize = 2;

const NUMBER: usize = 3;

const TEXT: usize = 4;

const OTHER: usize = 5;

// Room for the longest text, and for another beside it.
const TEXT_ROOM: usize = 20000;

const OTHER_ROOM: usize = 600;

// A field of a line; an empty one beyond the last.
fn field(line: &[u8], column: usize) -> &[u8] {
    line.split(|b| *b == b'\t').nth(column).unwrap_or(b"")
}

// The number that a field says, 0 where it says none.
pub(crate) fn said(field: &[u8]) -> u64 {
    read_number(field, u64::MAX).unwrap_or(0)
}

// What a letter after `\` stands for.
fn control(letter: u8) -> u8 {
    match letter {
        b't' => b'\t',
        b'n' => b'\n',
        _ => b'\r',
    }
}

// The text that a field stands for, as far as there is room, in the first bytes lent. `\` itself
// puts nothing.
fn decode<'a>(room: &'a mut [u8], field: &[u8]) -> &'a [u8] {
    let mut length: usize = 0;
    let mut escaped = false;
    for letter in field {
        if *letter != b'\\' && length < room.len() {
            room[length] = if escaped { control(*letter) } else { *letter };
            length += 1;
        }
        escaped = *letter == b'\\';
    }
    &room[..length]
}

// Runs a line: a heading, or an example of the kind. Gives the kind of the next lines.
pub(crate) fn run(rt: &impl Print, kind: Option<Kind>, line: &[u8]) -> Option<Kind> {
    let heading = field(line, KIND);
    let next = if heading.is_empty() {
        show(rt, line);
        answer(rt, kind, line);
        kind
    } else {
        word(rt, line);
        Kind::try_from(said(heading)).ok()
    };
    end(rt);
    next
}

// A field after a space, if it is not empty.
fn spaced(rt: &impl Print, field: &[u8]) {
    if !field.is_empty() {
        word(rt, b" ");
        word(rt, field);
    }
}

// What is given: the name or, where there is none, the texts, and the numbers.
fn show(rt: &impl Print, line: &[u8]) {
    let name = field(line, NAME);
    if name.is_empty() {
        text(rt, field(line, TEXT));
        spaced(rt, field(line, OTHER));
    } else {
        text(rt, name);
    }
    spaced(rt, field(line, OFFSET));
    spaced(rt, field(line, NUMBER));
}

// What comes back. An example below no kind gives nothing.
fn answer(rt: &impl Print, kind: Option<Kind>, line: &[u8]) {
    let mut text = [0u8; TEXT_ROOM];
    let mut other = [0u8; OTHER_ROOM];
    if let Some(kind) = kind {
        by_kind(
            rt,
            kind,
            said(field(line, OFFSET)),
            said(field(line, NUMBER)),
            decode(&mut text, field(line, TEXT)),
            decode(&mut other, field(line, OTHER)),
        );
    }
}

// What comes back, by the kind. Some kinds are given the bytes that the text encodes.
fn by_kind(rt: &impl Print, kind: Kind, offset: u64, number: u64, text: &[u8], other: &[u8]) {
    let at = offset as usize;
    let mut room = [0u8; given::ROOM];
    let bytes = given::decode(&mut room, text);
    match kind {
        Kind::Number => fields::number(rt, number, text),
        Kind::HexLength => fields::hex_length(rt, text),
        Kind::Digest => fields::digest(rt, text),
        Kind::Word => fields::word_at(rt, at, text, other),
        Kind::NumberAt => fields::number_at(rt, at, number, text),
        Kind::Bytes => fields::bytes_at(rt, at, text),
        Kind::Field => fields::field_at(rt, at, text),
        Kind::Span => fields::span_at(rt, at, text),
        Kind::Line => fields::line_at(rt, at, text),
        Kind::PutBytes => writers::bytes(rt, at, text),
        Kind::PutDecimal => writers::decimal(rt, at, text),
        Kind::PutHex => writers::hex(rt, at, bytes),
        Kind::PutDecoded => writers::decoded(rt, at, text),
        Kind::Configuration => given::configuration(rt, bytes),
        Kind::Outputs => given::outputs(rt, bytes),
        Kind::Output => given::output(rt, bytes, number),
        Kind::NewState => states::of_label(rt, bytes, other),
        Kind::StateText => states::of_text(rt, text),
        Kind::UnusedRoom => states::unused_room(rt, offset, text),
        Kind::Response => responses::response(rt, text),
    }
}
