// How far the lines of a text reach.
ghost use Rattle.std.specs.Prelude.{◌≡◌, ◌+◌, length};
ghost use Rattle.lines.specs.Line.{ended_lines, open_rest};

use verifier::reading::read_on;

// How many lines a newline ends, the offset after the last of them, and how many bytes are left
// from there on.
#[derive(Clone, Copy)]
pub(crate) struct EndedLines {
    pub(crate) count: usize,
    pub(crate) offset: usize,
    pub(crate) left: usize,
}

// The lines of a text that a newline ends.
pub(crate) fn ended_lines(text: &[u8]) -> EndedLines
    ensures count { result.count ≡ length (ended_lines text.now) }
    ensures offset { result.offset + result.left ≡ length text.now }
    ensures left { result.left ≡ length (open_rest text.now) }
{
    let mut count: usize = 0;
    let mut at: usize = 0;
    // A loop: an iterator of lines would have to hand out the offset and the rest as well.
    loop {
        let read = read_on(text, at);
        match read.line {
            Some(_) => {
                count += 1;
                at = read.offset;
            }
            None => {
                return EndedLines {
                    count,
                    offset: read.offset,
                    left: read.left,
                };
            }
        }
    }
}
