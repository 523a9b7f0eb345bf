// TreeHeadTBS (001, 10.2): the text that the log signs, compared and written.
ghost use Rattle.std.specs.Prelude.{◌≡◌, ◌+◌, ◌≤◌, leb, length, is_ok};
ghost use Rattle.lists.specs.Lists.{same, written};
ghost use Rattle.rules.specs.Configuration.{tree_head};
ghost use Rattle.rules.specs.Calls.{placed};
ghost use Rattle.checks.specs.Calls.{length_in};

use inputs::refusal::Refusal;
use lines::writing::put_bytes;

// The bytes of a size, and those of a size and a root, which stand after the configuration.
const SIZE: usize = 8;

const SIZE_AND_ROOT: usize = SIZE + 32;

// Whether a signed text is that of a log: its configuration as given, its size and its root.
pub(crate) fn is_tree_head(
    signed: &[u8],
    configuration: &[u8],
    tree_size: u64,
    root: [u8; 32],
) -> bool
    ensures { result ≡ same signed.now
        (tree_head configuration.now tree_size root) }
{
    let Some(rest) = signed.strip_prefix(configuration) else {
        return false;
    };
    match rest.strip_prefix(&tree_size.to_be_bytes()) {
        Some(left) => left == root.as_slice(),
        None => false,
    }
}

// Writes the signed text of a log into bytes from an offset on and answers its length; with too
// little room there it refuses with 16 and writes nothing.
pub(crate) fn place_tree_head(
    buffer: &mut [u8],
    offset: u64,
    configuration: &[u8],
    tree_size: u64,
    root: [u8; 32],
) -> Result<u64, Refusal>
    ensures answer { length_in result
        ≡ (placed buffer.old offset (tree_head configuration.now tree_size root)).0 }
    ensures ok { is_ok result
        ≡ leb (offset + length (tree_head configuration.now tree_size root)) (length buffer.old) }
    ensures bytes { buffer.new
        ≡ (placed buffer.old offset (tree_head configuration.now tree_size root)).1 }
{
    if (buffer.len() as u64) < offset {
        return Err(Refusal::Room);
    }
    let start = offset as usize;
    let room = buffer.len() - start;
    let length = configuration.len() + SIZE_AND_ROOT;
    if room < length {
        return Err(Refusal::Room);
    }
    put_tree_head(&mut buffer[start..], configuration, tree_size, root);
    Ok(length as u64)
}

// Writes it to the first bytes of those lent, in which there is room for it.
fn put_tree_head(bytes: &mut [u8], configuration: &[u8], tree_size: u64, root: [u8; 32])
    requires { length (tree_head configuration.now tree_size root) ≤ length bytes.old }
    ensures { bytes.new
        ≡ written bytes.old 0 (tree_head configuration.now tree_size root) }
{
    let number = tree_size.to_be_bytes();
    put_bytes(bytes, 0, configuration);
    put_bytes(bytes, configuration.len(), &number);
    put_bytes(bytes, configuration.len() + SIZE, &root);
}
