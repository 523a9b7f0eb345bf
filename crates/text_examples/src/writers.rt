// Writing into lent bytes: what fits, what just does not, and what stands around it.
use crate::example::said;
use lines::writing::{put_bytes, put_decimal, put_decoded, put_hex};
use output_lines::{number, text, word};

// How many bytes `.` are lent.
const LENT: usize = 10;

// The offset after what was put, and what was lent.
fn after(rt: &impl Print, put: Option<usize>, lent: &[u8]) {
    match put {
        Some(at) => number(rt, at as u64),
        None => word(rt, b" unchanged"),
    }
    text(rt, lent);
}

pub(crate) fn bytes(rt: &impl Print, at: usize, s: &[u8]) {
    let mut lent = [b'.'; LENT];
    let put = put_bytes(&mut lent, at, s);
    after(rt, put, &lent);
}

pub(crate) fn decimal(rt: &impl Print, at: usize, s: &[u8]) {
    let mut lent = [b'.'; LENT];
    let put = put_decimal(&mut lent, at, said(s));
    after(rt, put, &lent);
}

pub(crate) fn decoded(rt: &impl Print, at: usize, s: &[u8]) {
    let mut lent = [b'.'; LENT];
    let put = put_decoded(&mut lent, at, s);
    after(rt, put, &lent);
}

pub(crate) fn hex(rt: &impl Print, at: usize, s: &[u8]) {
    let mut lent = [b'.'; LENT];
    let put = put_hex(&mut lent, at, s);
    after(rt, put, &lent);
}
