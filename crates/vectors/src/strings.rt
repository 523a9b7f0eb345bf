// The strings of fixed length that trees hash.
use hash::strings::{digest_40, digest_65, digest_66};
use output_lines::show;

pub(crate) fn of_trees(rt: &impl Print) {
    let left = [0x11u8; 32];
    let right = [0xeeu8; 32];
    show(rt, b"sha256-40", &digest_40(0x0123456789abcdef, left));
    show(rt, b"sha256-65", &digest_65(1, left, right));
    show(rt, b"sha256-66", &digest_66(0, left, 1, right));
}
