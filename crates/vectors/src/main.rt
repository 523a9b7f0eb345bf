// Runs the hash layer on published vectors and on lengths at which the padding changes, and writes
// a line for each: its name and the digest or code. What must be written is the file stdout beside
// src/.
#![tactic(auto)]

mod codes;
mod digests;
mod strings;

fn main(rt: HostRuntime) {
    digests::published(&rt);
    digests::additional(&rt);
    digests::lengths(&rt);
    strings::of_trees(&rt);
    codes::short_keys(&rt);
    codes::long_keys(&rt);
}
