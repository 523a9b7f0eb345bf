// How the lines of responses and of states are laid out (paper 01, Response lines): the words that
// they begin with, and where their fields stand.
#[derive(Clone, Copy)]
pub struct Word {}

impl Word {
    pub const KT: [u8; 2] = *b"kt";

    pub const SEARCH: [u8; 6] = *b"search";

    pub const MONITOR: [u8; 7] = *b"monitor";

    pub const HEAD: [u8; 4] = *b"head";

    pub const TARGET: [u8; 6] = *b"target";

    pub const STEP: [u8; 4] = *b"step";

    pub const ENTRY: [u8; 5] = *b"entry";

    pub const IN: [u8; 2] = *b"in";

    pub const NO: [u8; 2] = *b"no";

    pub const NL: [u8; 2] = *b"nl";

    pub const NODE: [u8; 4] = *b"node";

    pub const END: [u8; 3] = *b"end";

    pub const SIZE: [u8; 4] = *b"size";

    pub const KEEP: [u8; 4] = *b"keep";

    pub const PAIR: [u8; 4] = *b"pair";
}

// Where the first field of a line stands, after its word and a tab, and what tells a line of a
// response that was read from the others of its section.
#[derive(Clone, Copy)]
pub struct Layout {}

impl Layout {
    pub const STEP: usize = 5;

    pub const ENTRY: usize = 6;

    // Of an `in`, `no` or `nl` line.
    pub const LOOKUP: usize = 3;

    pub const NODE: usize = 5;

    // The digits of a value.
    pub const DIGITS: usize = 64;

    // A node line with its newline.
    pub const NODE_LINE: usize = Layout::NODE + Layout::DIGITS + 1;

    // The first letter of an entry line, and of no lookup line.
    pub const ENTRY_LETTER: u8 = b'e';

    // The first letter of an `in` line, and of no other lookup line.
    pub const IN_LETTER: u8 = b'i';

    // The second letter of a `no` line, and not of an `nl` line.
    pub const NO_LETTER: u8 = b'o';
}
