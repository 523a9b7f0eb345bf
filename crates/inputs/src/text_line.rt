// The line of a text at an offset, and the word with which a line begins.
ghost use Rattle.std.specs.Prelude.{◌≡◌, MatchOption};
ghost use Rattle.std.proofs.Math.Option.{none, some};
ghost use Rattle.lines.specs.Cursor.{word_at};
ghost use Rattle.lines.specs.Readings.{next_of};
ghost use Rattle.std.specs.Fn.{FnOnceReturnsAt};
ghost use Rattle.inputs.specs.TextLine.{line_from, LineRead};

use lines::cursor::Cursor;

// The line that begins at an offset, without its newline, and the offset after it.
pub(crate) fn line_from(text: &[u8], at: usize) -> Option<(&[u8], usize)>
    ensures { MatchOption result (line_from text.now at ≡ none)
        (λ p. line_from text.now at ≡ some (p.0.now, p.1)) }
{
    let (stop, next) = Cursor { at }.line(text)?;
    Some((&text[at..stop], next.at))
}

// What a reader makes of the line at an offset, and the offset after it.
pub(crate) fn read_from<T: Drop, F: FnOnce(&[u8]) -> Option<T>>(
    text: &[u8],
    at: usize,
    read: F,
) -> Option<(T, usize)>
    requires { F.IsAlwaysCallable read }
    ensures { LineRead (line_from text.now at) (λ l o. FnOnceReturnsAt F.FnOnce read l o) result }
{
    let (line, next) = line_from(text, at)?;
    Some((read(line)?, next))
}

// The cursor after the word with which a line begins.
pub(crate) fn after_word(line: &[u8], word: &[u8]) -> Option<Cursor>
    ensures { next_of result ≡ word_at word.now line.now 0 }
{
    Cursor { at: 0 }.word(line, word)
}
