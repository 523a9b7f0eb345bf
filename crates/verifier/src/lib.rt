// The verifier: what the program makes of its files, and the reader that it reads a response on
// with.
#![tactic(auto)]

mod answer_line;
pub mod files;
pub mod reading;
mod request;
