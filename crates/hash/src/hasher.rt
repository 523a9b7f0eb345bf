// SHA-256 of a message that comes in parts, none of which is kept beyond a block.
ghost use Rattle.std.specs.Prelude.{◌≡◌};
ghost use Rattle.hash.specs.Hasher as Hasher·;

use crate::block::{HashValue, compress};
use crate::bytes::buffer_of;
use crate::sha256::{compress_all, finish, initial};

// The hash value after the whole blocks of what has come, the bytes after them with zeros after,
// and how many bytes have come, modulo 2^64.
// The bytes pending stand in an array with a count beside it: memory is fixed, and no part is kept.
#[derive(Clone, Copy)]
pub struct Hasher {
    pub value: HashValue,
    pub block: [u8; 64],
    pub count: u64,
}

impl Hasher {
    // Nothing has come.
    #[tactic(auto, unfolding(crate::specs::Hasher::started))]
    pub fn new() -> Self
        ensures { result ≡ Hasher·.started }
    {
        Hasher {
            value: initial(),
            block: [0; 64],
            count: 0,
        }
    }

    // One part more.
    pub fn update(self, part: &[u8]) -> Self
        ensures { result ≡ Hasher·.updated self part.now }
    {
        let count = self.count.wrapping_add(part.len() as u64);
        let fill = (self.count % 64) as usize;
        let room = 64 - fill;
        let value = self.value;
        let pending = &self.block[..fill];
        if part.len() < room {
            let block = buffer_of(&[pending, part]);
            Hasher {
                value,
                block,
                count,
            }
        } else {
            let (first, rest) = part.split_at(room);
            let block = buffer_of(&[pending, first]);
            after_blocks(compress(value, &block), rest, count)
        }
    }

    // The digest of all that has come.
    #[tactic(auto, unfolding(crate::specs::Hasher::closed, crate::specs::Hasher::pending))]
    pub fn finish(self) -> [u8; 32]
        ensures { result ≡ Hasher·.closed self }
    {
        let fill = (self.count % 64) as usize;
        finish(self.value, self.count, &self.block[..fill])
    }
}

// What is left where a message of `count` bytes ends in s, from the hash value of the blocks before
// s.
fn after_blocks(v: HashValue, s: &[u8], count: u64) -> Hasher
    ensures { result ≡ Hasher·.taken v s.now count }
{
    let (whole, rest) = s.as_chunks::<64>();
    let value = compress_all(v, whole);
    let block = buffer_of(&[rest]);
    Hasher {
        value,
        block,
        count,
    }
}
