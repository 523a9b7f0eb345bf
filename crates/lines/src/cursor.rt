// Reading on from a cursor: lines of a text, fields of a line (paper 01, Response lines).
ghost use Rattle.std.specs.Prelude.{◌≡◌, ◌<◌, ◌≤◌, ◌+◌, length, MatchOption};
ghost use Rattle.lines.specs.Number.{read_number};
ghost use Rattle.lines.specs.Hex.{decoded_length};
ghost use Rattle.lines.specs.Cursor.{left_at, line_at, past, field_at, read_at, word_at};
ghost use Rattle.lines.specs.Readings.{read_of, next_of};

use crate::hex::decoded_length;
use crate::line::{line_end, span};
use crate::number::read_number;

// An offset in a text or in a line, from which it is read on. It goes in by value, and comes back
// with what was read, after it.
#[derive(Clone, Copy)]
pub struct Cursor {
    pub at: usize,
}

impl Cursor {
    // How many bytes of a text are left from here on.
    #[tactic(auto, unfolding(crate::specs::Cursor::left_at))]
    pub fn left(self, text: &[u8]) -> usize
        ensures { result ≡ left_at text.now self.at }
    {
        text.len().saturating_sub(self.at)
    }

    // The line that begins here in a text, by the offset of the newline that ends it.
    #[tactic(auto, using(crate::proofs::CursorLaws::at_cursor))]
    pub fn line(self, text: &[u8]) -> Option<(usize, Cursor)>
        ensures { read_of result ≡ line_at text.now self.at }
    {
        let stop = line_end(text, self.at);
        if stop < text.len() {
            return Some((stop, Cursor { at: stop + 1 }));
        }
        None
    }

    // The offset after a line that was read here; this one, where no newline ended it.
    #[tactic(auto, unfolding(crate::specs::Cursor::past))]
    pub fn past(self, line: Option<(usize, Cursor)>) -> usize
        ensures { result ≡ past (read_of line) self.at }
    {
        line.map_or(self.at, |(_, next)| next.at)
    }

    // The field that begins here in a line: the part of the line that it fills.
    #[tactic(auto, using(crate::proofs::CursorLaws::at_cursor))]
    pub fn field(self, line: &[u8]) -> &[u8]
        ensures { result.now ≡ field_at line.now self.at }
    {
        let start = self.at.min(line.len());
        let stop = span(line, start, b'\t');
        &line[start..stop]
    }

    // The field that begins here in a line and the cursor after it; none begins beyond the line.
    fn next_field(self, line: &[u8]) -> Option<(&[u8], Cursor)>
        ensures { MatchOption result (length line.now < self.at) (λ r. (self.at ≤ length line.now)
            × (r.0.now ≡ field_at line.now self.at) × (r.1.at ≡ self.at + length r.0.now + 1)) }
    {
        if line.len() < self.at {
            return None;
        }
        let f = self.field(line);
        Some((
            f,
            Cursor {
                at: self.at + f.len() + 1,
            },
        ))
    }

    // The field that begins here in a line, as a word.
    #[tactic(auto, using(crate::proofs::CursorLaws::words))]
    pub fn word(self, line: &[u8], word: &[u8]) -> Option<Cursor>
        ensures { next_of result ≡ word_at word.now line.now self.at }
    {
        let (f, next) = self.next_field(line)?;
        if f != word {
            return None;
        }
        Some(next)
    }

    // The same as a decimal number not above a bound.
    #[tactic(auto, using(crate::proofs::CursorLaws::at_cursor))]
    pub fn number(self, line: &[u8], bound: u64) -> Option<(u64, Cursor)>
        ensures { read_of result ≡ read_at (read_number bound) line.now self.at }
    {
        let (f, next) = self.next_field(line)?;
        Some((read_number(f, bound)?, next))
    }

    // The same as a byte string in hex.
    #[tactic(auto, using(crate::proofs::CursorLaws::at_cursor))]
    pub fn bytes(self, line: &[u8]) -> Option<(usize, Cursor)>
        ensures { read_of result ≡ read_at decoded_length line.now self.at }
    {
        let (f, next) = self.next_field(line)?;
        Some((decoded_length(f)?, next))
    }
}
