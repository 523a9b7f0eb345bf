// SHA-256: the examples that NIST publishes with FIPS 180-4, and messages whose length stands at a
// border of the padding.
use hash::hasher::Hasher;
use hash::sha256::digest;
use output_lines::show;

// One byte many times over, in parts of up to 1,000 bytes.
fn repeated(byte: u8, times: usize) -> [u8; 32] {
    let part = [byte; 1000];
    let mut h = Hasher::new();
    for _ in 0..times / 1000 {
        h = h.update(&part);
    }
    h.update(&part[..times % 1000]).finish()
}

fn show_digest(rt: &impl Print, name: &[u8], message: &[u8]) {
    show(rt, name, &digest(message));
}

fn show_repeated(rt: &impl Print, name: &[u8], byte: u8, times: usize) {
    show(rt, name, &repeated(byte, times));
}

pub(crate) fn published(rt: &impl Print) {
    show_digest(rt, b"sha256-empty", b"");
    show_digest(rt, b"sha256-abc", b"abc");
    show_digest(
        rt,
        b"sha256-448-bits",
        b"abcdbcdecdefdefgefghfghighijhijkijkljklmklmnlmnomnopnopq",
    );
    show_digest(
        rt,
        b"sha256-896-bits",
        b"abcdefghbcdefghicdefghijdefghijkefghijklfghijklmghijklmnhijklmnoijklmnopjklmnopqklmnopqrlmnopqrsmnopqrstnopqrstu",
    );
    show_repeated(rt, b"sha256-million-a", b'a', 1000000);
}

pub(crate) fn additional(rt: &impl Print) {
    show_digest(rt, b"sha256-bd", b"\xbd");
    show_digest(rt, b"sha256-c98c8e55", b"\xc9\x8c\x8e\x55");
    show_repeated(rt, b"sha256-1000-00", 0, 1000);
    show_repeated(rt, b"sha256-1000-41", 0x41, 1000);
    show_repeated(rt, b"sha256-1005-55", 0x55, 1005);
    show_repeated(rt, b"sha256-million-00", 0, 1000000);
}

// Zeros in every length from 53 to 130, whole and in two parts.
pub(crate) fn lengths(rt: &impl Print) {
    let zeros = [0u8; 130];
    for n in 53..=zeros.len() {
        whole_and_parts(rt, &zeros[..n]);
    }
}

fn whole_and_parts(rt: &impl Print, message: &[u8]) {
    show_digest(rt, b"sha256-zeros", message);
    let (start, rest) = message.split_at(message.len() / 3);
    let d = Hasher::new().update(start).update(rest).finish();
    show(rt, b"sha256-zeros-in-parts", &d);
}
