// The calls on a response (paper 01, Sixteen numbers). `call` has the whole of a call, `readings` 1
// to 5, `trial` 6 to 14 in the order of trial, `acceptance` what follows from them; `search` and
// `monitoring` have what the kinds ask.
#![tactic(auto)]

mod acceptance;
pub mod call;
mod commitment;
mod entries;
pub mod limits;
mod lookup_line;
mod lookups;
mod map;
mod monitored_versions;
mod monitoring;
mod readings;
mod request;
mod search;
mod sections;
pub mod signed_text;
mod sought;
mod steps;
mod timestamps;
mod tree_head;
mod trial;
