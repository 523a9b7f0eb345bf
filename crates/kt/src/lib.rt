// The library that C programs link. A static library has the C functions of its own crate alone:
// no crate is built on this one, so that it can stand above every layer.
#![tactic(auto)]

pub mod exports;
