// Bytes put one after the other.
ghost use Rattle.std.specs.Prelude.{◌≡◌, ◌≤◌, length};
ghost use Rattle.hash.specs.Bytes.{joined, padded};

// The parts one after the other, and zeros after them.
pub(crate) fn buffer_of<const N: usize>(parts: &[&[u8]]) -> [u8; N]
    requires { length (joined parts.now) ≤ N }
    ensures { result ≡ padded N (joined parts.now) }
{
    let mut buffer = [0u8; N];
    let bytes = &mut buffer[..];
    let mut at = 0;
    for part in parts {
        bytes[at..at + part.len()].copy_from_slice(part);
        at += part.len();
    }
    buffer
}
