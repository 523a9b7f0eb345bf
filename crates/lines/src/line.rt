// Where a byte stands in a text.
ghost use Rattle.std.specs.Prelude.{◌≡◌, true, ◌+◌, ◌-◌, ◌≤◌, ◌<◌, length, drop};
ghost use Rattle.lines.specs.Line.{before, newline};

// How many bytes of a line are looked at one by one, and then in steps of how many, and of how many.
const NEAR: usize = 12;

const WIDE: usize = 64;

const NARROW: usize = 16;

// The offset of the first byte stop from an offset on, or the end where there is none; an offset
// beyond the end is answered itself.
#[tactic(auto, using(crate::proofs::OffsetLaws::spans))]
pub fn span(s: &[u8], at: usize, stop: u8) -> usize
    ensures value { result ≡ at + length (before stop (drop at s.now)) }
    ensures within { (at ≤ result) × (result - at ≤ length s.now - at) }
{
    for i in at..s.len() {
        if s[i] == stop {
            return i;
        }
    }
    at.max(s.len())
}

// The same of a newline. Short lines end within the first bytes; long ones are passed in steps.
#[tactic(auto, using(crate::proofs::OffsetLaws::spans))]
pub fn line_end(s: &[u8], at: usize) -> usize
    ensures value { result ≡ at + length (before newline (drop at s.now)) }
    ensures within { (at ≤ result) × (result - at ≤ length s.now - at) }
{
    if s.len().saturating_sub(at) < NEAR {
        return span(s, at, b'\n');
    }
    for i in at..at + NEAR {
        if s[i] == b'\n' {
            return i;
        }
    }
    let far = skipped(s, at + NEAR, WIDE);
    span(s, skipped(s, far, NARROW), b'\n')
}

// An offset with the same next newline, after as many steps of so many bytes as have none. A loop over
// offsets: where it ends shows only in it.
fn skipped(s: &[u8], at: usize, step: usize) -> usize
    requires { 0 < step }
    ensures value { result + length (before newline (drop result s.now))
        ≡ at + length (before newline (drop at s.now)) }
    ensures within { (at ≤ result) × (result - at ≤ length s.now - at) }
{
    let mut i = at;
    while i < s.len() {
        if s.len() - i < step {
            return i;
        }
        if !lacks_newline(s, i, step) {
            return i;
        }
        i += step;
    }
    i
}

// Whether so many bytes from an offset on have no newline. All are looked at: a loop with one way
// out is compiled to steps of sixteen bytes. By hand: `contains` and memchr were tried, and slower.
fn lacks_newline(s: &[u8], at: usize, count: usize) -> bool
    requires { at + count ≤ length s.now }
    ensures { result ≡ true → at + count + length (before newline (drop (at + count) s.now))
        ≡ at + length (before newline (drop at s.now)) }
{
    let mut hit = false;
    for b in &s[at..at + count] {
        hit |= *b == b'\n';
    }
    !hit
}
