// Runs the readers and writers of texts on good and broken examples, and writes a line for each:
// what it is given, and what comes back. The examples are the lines of the file stdin beside src/,
// of which the first names the columns. What must be written is the file stdout.
#![tactic(auto)]

mod example;
mod fields;
mod given;
mod kind;
mod responses;
mod states;
mod writers;

use whole_input::read_full;

// Room for all examples.
const ROOM: usize = 131072;

fn main(rt: HostRuntime) {
    let mut text = [0u8; ROOM];
    // A read that fails ends the examples.
    let (Ok(length) | Err(length)) = read_full(&mut rt.reader(), &mut text);
    run_lines(&rt, &text[..length]);
}

// Runs the lines one after the other, each as an example of the kind of the heading above it.
fn run_lines(rt: &impl Print, text: &[u8]) {
    let mut kind = None;
    for ended in text.split_inclusive(|b| *b == b'\n') {
        let line = ended.strip_suffix(b"\n").unwrap_or(ended);
        kind = example::run(rt, kind, line);
    }
}
