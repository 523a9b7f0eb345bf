// A text kept together with an offset in it (paper 01, Response lines): the reader through which
// the program reads a response on, line by line.
ghost use Rattle.std.specs.Prelude.{◌≡◌};
ghost use Rattle.lines.specs.Cursor.{left_at, line_at, past};
ghost use Rattle.lines.specs.Readings.{read_of};
ghost use Rattle.verifier.specs.Reading.{read_on, read_on_of};

use lines::cursor::Cursor;

// A text, and an offset from which it is read on.
#[derive(Clone, Copy)]
pub struct Reader<'a> {
    text: &'a [u8],
    at: usize,
}

// A line that was read, the reader's offset after it, and how many bytes are left from there on.
#[derive(Clone, Copy)]
pub struct ReadOn {
    pub line: Option<(usize, Cursor)>,
    pub offset: usize,
    pub left: usize,
}

impl<'a> Reader<'a> {
    // The reader of a text from an offset on.
    pub fn new(text: &'a [u8], at: usize) -> Reader<'a>
        ensures { (result.text ≡ text.entry) × (result.at ≡ at) }
    {
        Reader { text, at }
    }

    // The line that begins at the offset.
    pub fn line(self) -> Option<(usize, Cursor)>
        ensures { read_of result ≡ line_at self.entry.text.now self.entry.at }
    {
        Cursor { at: self.at }.line(self.text)
    }

    // The reader after a line that was read at the offset; at the offset, where no newline ended
    // it.
    pub fn past(self, line: Option<(usize, Cursor)>) -> Reader<'a>
        ensures { (result.text ≡ self.entry.text) × (result.at ≡ past (read_of line) self.entry.at) }
    {
        let at = Cursor { at: self.at }.past(line);
        Reader {
            text: self.text,
            at,
        }
    }

    // The offset.
    pub fn offset(self) -> usize
        ensures { result ≡ self.entry.at }
    {
        self.at
    }

    // The number of bytes from the offset on.
    pub fn left(self) -> usize
        ensures { result ≡ left_at self.entry.text.now self.entry.at }
    {
        Cursor { at: self.at }.left(self.text)
    }
}

// Reads the line that begins at an offset of a text, and goes after it.
pub fn read_on(text: &[u8], at: usize) -> ReadOn
    ensures { read_on_of result ≡ read_on text.now at }
{
    let reader = Reader::new(text, at);
    let line = reader.line();
    let after = reader.past(line);
    ReadOn {
        line,
        offset: after.offset(),
        left: after.left(),
    }
}
