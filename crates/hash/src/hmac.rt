// HMAC-SHA-256 (RFC 2104, 2), of a whole text and of one that comes in parts.
ghost use Rattle.std.specs.Prelude.{◌≡◌};
ghost use Rattle.hash.specs.Hmac as Hmac;

use crate::bytes::buffer_of;
use crate::hasher::Hasher;
use crate::sha256::digest;

// The code of a text under a key of any length.
#[tactic(auto, using(crate::proofs::HmacLaws::hmac_parts))]
pub fn mac(key: &[u8], text: &[u8]) -> [u8; 32]
    ensures { result ≡ Hmac.hmac key.now text.now }
{
    finish(key, start(key).update(text))
}

// A hasher that then takes the text, part by part.
#[tactic(auto, unfolding(crate::specs::Hmac::begun, crate::specs::Hmac::inner_key))]
pub fn start(key: &[u8]) -> Hasher
    ensures { result ≡ Hmac.begun key.now }
{
    let inner = xor_each(key_block(key), 0x36);
    Hasher::new().update(&inner)
}

// The code, from a hasher that has taken the text.
pub fn finish(key: &[u8], text: Hasher) -> [u8; 32]
    ensures { result ≡ Hmac.ended key.now text }
{
    let inner = text.finish();
    let outer = xor_each(key_block(key), 0x5c);
    Hasher::new().update(&outer).update(&inner).finish()
}

fn key_block(key: &[u8]) -> [u8; 64]
    ensures { result ≡ Hmac.key_block key.now }
{
    if key.len() <= 64 {
        buffer_of(&[key])
    } else {
        buffer_of(&[&digest(key)])
    }
}

// A block, each byte XOR a byte.
fn xor_each(mut block: [u8; 64], x: u8) -> [u8; 64]
    ensures { result ≡ Hmac.xored x block }
{
    for b in block.iter_mut() {
        *b ^= x;
    }
    block
}
