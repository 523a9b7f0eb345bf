// A line of output, piece by piece, for the programs that run examples. What a handle writes no
// contract can say; what must be written is the file stdout of each program. A write that fails is
// passed over.
#![tactic(auto)]

// Bytes as they are.
pub fn word(rt: &impl Print, s: &[u8]) {
    let _ = rt.write_all(s);
}

// The end of the line.
pub fn end(rt: &impl Print) {
    word(rt, b"\n");
}

// A space and a number.
pub fn number(rt: &impl Print, n: u64) {
    let _ = print!(rt; " {n}");
}

// Numbers, each after a space.
pub fn numbers(rt: &impl Print, all: &[u64]) {
    for n in all {
        number(rt, *n);
    }
}

// Bytes in hex.
pub fn hex(rt: &impl Print, s: &[u8]) {
    for b in s {
        let _ = print!(rt; "{b:02x}");
    }
}

// A space and bytes in hex.
pub fn bytes(rt: &impl Print, s: &[u8]) {
    word(rt, b" ");
    hex(rt, s);
}

// A space and whether something holds.
pub fn whether(rt: &impl Print, holds: bool) {
    let said: &[u8] = if holds { b" yes" } else { b" no" };
    word(rt, said);
}

// A space and a text between quotes.
pub fn text(rt: &impl Print, s: &[u8]) {
    word(rt, b" \"");
    word(rt, s);
    word(rt, b"\"");
}

// A whole line: a name, a space and bytes in hex.
pub fn show(rt: &impl Print, name: &[u8], s: &[u8]) {
    word(rt, name);
    bytes(rt, s);
    end(rt);
}
