// SHA-256 of a whole message (FIPS 180-4, 5 and 6.2).
ghost use Rattle.std.specs.Prelude.{◌≡◌, ◌%◌, ◌<◌, ◌++◌, fold, length};
ghost use Rattle.hash.specs.Block.{compressed};
ghost use Rattle.hash.specs.Bytes.{padded};
ghost use Rattle.hash.specs.Sha256 as Sha256;

use crate::block::{HashValue, compress};
use crate::bytes::buffer_of;

// 5.3.3
#[tactic(auto, unfolding(crate::specs::Sha256::initial))]
pub(crate) fn initial() -> HashValue
    ensures { result ≡ Sha256.initial }
{
    HashValue {
        a: 0x6a09e667,
        b: 0xbb67ae85,
        c: 0x3c6ef372,
        d: 0xa54ff53a,
        e: 0x510e527f,
        f: 0x9b05688c,
        g: 0x1f83d9ab,
        h: 0x5be0cd19,
    }
}

// The hash value after some blocks.
pub(crate) fn compress_all(v: HashValue, blocks: &[[u8; 64]]) -> HashValue
    ensures { result ≡ fold compressed v blocks.now }
{
    blocks.iter().fold(v, |x, block| compress(x, block))
}

// The last bytes of a message of `total` bytes, fewer than a block, with the padding after them
// (5.1.1) and zeros after that.
fn ending(rest: &[u8], total: u64) -> [u8; 128]
    requires { (length rest.now < 64) × (total % 64 ≡ length rest.now) }
    ensures { result ≡ padded 128 (rest.now ++ Sha256.padding total) }
{
    let n = rest.len();
    let bits = (total << 3).to_be_bytes();
    let mut b: [u8; 128] = buffer_of(&[rest, &[128]]);
    if n < 56 {
        b[56..64].copy_from_slice(&bits);
        b
    } else {
        b[120..].copy_from_slice(&bits);
        b
    }
}

// The digest of a message of `total` bytes from the hash value of its whole blocks and the bytes
// after them.
pub(crate) fn finish(v: HashValue, total: u64, rest: &[u8]) -> [u8; 32]
    requires { (length rest.now < 64) × (total % 64 ≡ length rest.now) }
    ensures { result ≡ Sha256.finished v total rest.now }
{
    let b = ending(rest, total);
    let (last, _) = b.as_chunks::<64>();
    if rest.len() < 56 {
        digest_of(compress_all(v, &last[..1]))
    } else {
        digest_of(compress_all(v, last))
    }
}

// The digest of a message.
pub fn digest(message: &[u8]) -> [u8; 32]
    ensures { result ≡ Sha256.sha256 message.now }
{
    let (whole, rest) = message.as_chunks::<64>();
    finish(compress_all(initial(), whole), message.len() as u64, rest)
}

fn digest_of(v: HashValue) -> [u8; 32]
    ensures { result ≡ Sha256.digest_of v }
{
    buffer_of(&[
        &v.a.to_be_bytes(),
        &v.b.to_be_bytes(),
        &v.c.to_be_bytes(),
        &v.d.to_be_bytes(),
        &v.e.to_be_bytes(),
        &v.f.to_be_bytes(),
        &v.g.to_be_bytes(),
        &v.h.to_be_bytes(),
    ])
}
