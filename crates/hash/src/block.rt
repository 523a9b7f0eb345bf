// One block of SHA-256 (FIPS 180-4, 6.2.2). Sixteen words of the message schedule are kept at a
// time.
ghost use Rattle.std.specs.Prelude.{◌≡◌, drop};
ghost use Rattle.hash.specs.Block as Block;

use crate::words::{big_sigma0, big_sigma1, ch, maj, small_sigma0, small_sigma1};

// The eight words of a hash value, and the eight working variables of the rounds.
#[derive(Clone, Copy)]
pub struct HashValue {
    pub a: u32,
    pub b: u32,
    pub c: u32,
    pub d: u32,
    pub e: u32,
    pub f: u32,
    pub g: u32,
    pub h: u32,
}

// 4.2.2, sixteen to a row.
const K: [[u32; 16]; 4] = [
    [
        0x428a2f98, 0x71374491, 0xb5c0fbcf, 0xe9b5dba5, 0x3956c25b, 0x59f111f1, 0x923f82a4,
        0xab1c5ed5, 0xd807aa98, 0x12835b01, 0x243185be, 0x550c7dc3, 0x72be5d74, 0x80deb1fe,
        0x9bdc06a7, 0xc19bf174,
    ],
    [
        0xe49b69c1, 0xefbe4786, 0x0fc19dc6, 0x240ca1cc, 0x2de92c6f, 0x4a7484aa, 0x5cb0a9dc,
        0x76f988da, 0x983e5152, 0xa831c66d, 0xb00327c8, 0xbf597fc7, 0xc6e00bf3, 0xd5a79147,
        0x06ca6351, 0x14292967,
    ],
    [
        0x27b70a85, 0x2e1b2138, 0x4d2c6dfc, 0x53380d13, 0x650a7354, 0x766a0abb, 0x81c2c92e,
        0x92722c85, 0xa2bfe8a1, 0xa81a664b, 0xc24b8b70, 0xc76c51a3, 0xd192e819, 0xd6990624,
        0xf40e3585, 0x106aa070,
    ],
    [
        0x19a4c116, 0x1e376c08, 0x2748774c, 0x34b0bcb5, 0x391c0cb3, 0x4ed8aa4a, 0x5b9cca4f,
        0x682e6ff3, 0x748f82ee, 0x78a5636f, 0x84c87814, 0x8cc70208, 0x90befffa, 0xa4506ceb,
        0xbef9a3f7, 0xc67178f2,
    ],
];

// Step 1 for t up to 15: the words of a block. No clause of `iter_mut().zip(..)` says what the words end as.
fn first_words(block: &[u8; 64]) -> [u32; 16]
    ensures { result ≡ Block.words 16 block.now }
{
    let mut words = [0u32; 16];
    let (parts, _) = block.as_chunks::<4>();
    for (t, w) in words.iter_mut().enumerate() {
        *w = u32::from_be_bytes(parts[t]);
    }
    words
}

// Step 1 for one t from 16 on, from the words 2, 7, 15 and 16 places before it.
fn schedule_word(w2: u32, w7: u32, w15: u32, w16: u32) -> u32
    ensures { result ≡ Block.mixed w2 w7 w15 w16 }
{
    small_sigma1(w2)
        .wrapping_add(w7)
        .wrapping_add(small_sigma0(w15))
        .wrapping_add(w16)
}

// Step 1 for the next sixteen words, which take the places of the sixteen words w.
// Sixteen stores written out: a loop, which takes its indices modulo 16, was slower.
fn next_words(w: &mut [u32; 16])
    ensures { w.new ≡ drop 16 (Block.extended 16 w.old) }
{
    w[0] = schedule_word(w[14], w[9], w[1], w[0]);
    w[1] = schedule_word(w[15], w[10], w[2], w[1]);
    w[2] = schedule_word(w[0], w[11], w[3], w[2]);
    w[3] = schedule_word(w[1], w[12], w[4], w[3]);
    w[4] = schedule_word(w[2], w[13], w[5], w[4]);
    w[5] = schedule_word(w[3], w[14], w[6], w[5]);
    w[6] = schedule_word(w[4], w[15], w[7], w[6]);
    w[7] = schedule_word(w[5], w[0], w[8], w[7]);
    w[8] = schedule_word(w[6], w[1], w[9], w[8]);
    w[9] = schedule_word(w[7], w[2], w[10], w[9]);
    w[10] = schedule_word(w[8], w[3], w[11], w[10]);
    w[11] = schedule_word(w[9], w[4], w[12], w[11]);
    w[12] = schedule_word(w[10], w[5], w[13], w[12]);
    w[13] = schedule_word(w[11], w[6], w[14], w[13]);
    w[14] = schedule_word(w[12], w[7], w[15], w[14]);
    w[15] = schedule_word(w[13], w[8], w[0], w[15]);
}

// Step 3 for one t.
fn round(v: HashValue, k: u32, w: u32) -> HashValue
    ensures { result ≡ Block.round v k w }
{
    let t1 = v
        .h
        .wrapping_add(big_sigma1(v.e))
        .wrapping_add(ch(v.e, v.f, v.g))
        .wrapping_add(k)
        .wrapping_add(w);
    let t2 = big_sigma0(v.a).wrapping_add(maj(v.a, v.b, v.c));
    HashValue {
        a: t1.wrapping_add(t2),
        b: v.a,
        c: v.b,
        d: v.c,
        e: v.d.wrapping_add(t1),
        f: v.e,
        g: v.f,
        h: v.g,
    }
}

// Step 3 for sixteen t, with their constants k and their words w.
// Sixteen calls written out: a loop over the constants and words was slower.
fn sixteen_rounds(v: HashValue, k: &[u32; 16], w: &[u32; 16]) -> HashValue
    ensures { result ≡ Block.rounds 16 v k.now w.now }
{
    let a = round(v, k[0], w[0]);
    let b = round(a, k[1], w[1]);
    let c = round(b, k[2], w[2]);
    let d = round(c, k[3], w[3]);
    let e = round(d, k[4], w[4]);
    let f = round(e, k[5], w[5]);
    let g = round(f, k[6], w[6]);
    let h = round(g, k[7], w[7]);
    let i = round(h, k[8], w[8]);
    let j = round(i, k[9], w[9]);
    let l = round(j, k[10], w[10]);
    let m = round(l, k[11], w[11]);
    let n = round(m, k[12], w[12]);
    let o = round(n, k[13], w[13]);
    let p = round(o, k[14], w[14]);
    round(p, k[15], w[15])
}

// Step 4.
#[tactic(auto, unfolding(crate::specs::Block::added))]
fn add(x: HashValue, y: HashValue) -> HashValue
    ensures { result ≡ Block.added x y }
{
    HashValue {
        a: x.a.wrapping_add(y.a),
        b: x.b.wrapping_add(y.b),
        c: x.c.wrapping_add(y.c),
        d: x.d.wrapping_add(y.d),
        e: x.e.wrapping_add(y.e),
        f: x.f.wrapping_add(y.f),
        g: x.g.wrapping_add(y.g),
        h: x.h.wrapping_add(y.h),
    }
}

// The hash value after one block more.
pub(crate) fn compress(v: HashValue, block: &[u8; 64]) -> HashValue
    ensures { result ≡ Block.compressed v block.now }
{
    let [k0, k1, k2, k3] = K;
    let mut w = first_words(block);
    let v0 = sixteen_rounds(v, &k0, &w);
    next_words(&mut w);
    let v1 = sixteen_rounds(v0, &k1, &w);
    next_words(&mut w);
    let v2 = sixteen_rounds(v1, &k2, &w);
    next_words(&mut w);
    let v3 = sixteen_rounds(v2, &k3, &w);
    add(v, v3)
}
