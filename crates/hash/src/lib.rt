// The hash layer: SHA-256 (FIPS 180-4) and HMAC-SHA-256 (RFC 2104). Each function's contract is an
// equation with a definition of specs/.
#![tactic(auto)]

pub mod block;
mod bytes;
pub mod hasher;
pub mod hmac;
pub mod sha256;
pub mod strings;
mod words;
