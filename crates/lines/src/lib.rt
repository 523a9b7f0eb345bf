// The text forms of responses and states: numbers, hex, fields, lines, read at a cursor and written
// into lent bytes. Each function's contract is an equation with a definition of specs/.
#![tactic(auto)]

pub mod cursor;
pub mod hex;
pub mod layout;
pub mod line;
pub mod number;
pub mod part;
pub mod writing;
