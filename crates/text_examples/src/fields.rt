// Numbers, hex, fields and lines.
use lines::cursor::Cursor;
use lines::hex::{decoded_length, read_digest};
use lines::line::span;
use lines::number::read_number;
use output_lines::{bytes, numbers, text, whether, word};

// The numbers that were read, or a word where there are none.
fn numbers_or<const N: usize>(rt: &impl Print, read: Option<[u64; N]>, none: &[u8]) {
    match read {
        Some(all) => numbers(rt, &all),
        None => word(rt, none),
    }
}

pub(crate) fn number(rt: &impl Print, bound: u64, s: &[u8]) {
    numbers_or(rt, read_number(s, bound).map(|n| [n]), b" broken");
}

pub(crate) fn hex_length(rt: &impl Print, s: &[u8]) {
    numbers_or(rt, decoded_length(s).map(|n| [n as u64]), b" broken");
}

pub(crate) fn digest(rt: &impl Print, s: &[u8]) {
    let read = read_digest(s);
    whether(rt, read.is_some());
    bytes(rt, &read.unwrap_or([0; 32]));
}

pub(crate) fn word_at(rt: &impl Print, at: usize, s: &[u8], word: &[u8]) {
    let read = Cursor { at }.word(s, word);
    numbers_or(rt, read.map(|next| [next.at as u64]), b" other");
}

pub(crate) fn number_at(rt: &impl Print, at: usize, bound: u64, s: &[u8]) {
    let read = Cursor { at }.number(s, bound);
    numbers_or(rt, read.map(|(n, next)| [n, next.at as u64]), b" broken");
}

pub(crate) fn bytes_at(rt: &impl Print, at: usize, s: &[u8]) {
    let read = Cursor { at }.bytes(s);
    numbers_or(
        rt,
        read.map(|(n, next)| [n as u64, next.at as u64]),
        b" broken",
    );
}

pub(crate) fn field_at(rt: &impl Print, at: usize, s: &[u8]) {
    text(rt, Cursor { at }.field(s));
}

pub(crate) fn span_at(rt: &impl Print, at: usize, s: &[u8]) {
    numbers(rt, &[span(s, at, b'\t') as u64]);
}

pub(crate) fn line_at(rt: &impl Print, at: usize, s: &[u8]) {
    let read = Cursor { at }.line(s);
    numbers_or(
        rt,
        read.map(|(stop, next)| [stop as u64, next.at as u64]),
        b" open",
    );
}
