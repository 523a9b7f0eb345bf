// Decimal numbers (paper 01, Response lines).
ghost use Rattle.std.specs.Prelude.{◌≡◌};
ghost use Rattle.lists.specs.Choice.{option_of};
ghost use Rattle.lines.specs.Number.{read_number};

// The number that s encodes, if it is a decimal number not above the bound; reading ends at the
// first byte that makes it none. By hand: `parse` takes a sign and leading zeros.
#[tactic(auto, using(crate::proofs::ReadingLaws::numbers))]
pub fn read_number(s: &[u8], bound: u64) -> Option<u64>
    ensures { option_of result ≡ read_number bound s.now }
{
    if s.is_empty() {
        return None;
    }
    if 1 < s.len() {
        if s[0] == b'0' {
            return None;
        }
    }
    let mut value: u64 = 0;
    for b in s {
        if !b.is_ascii_digit() {
            return None;
        }
        value = value.checked_mul(10)?.checked_add((*b - b'0') as u64)?;
        if bound < value {
            return None;
        }
    }
    Some(value)
}
