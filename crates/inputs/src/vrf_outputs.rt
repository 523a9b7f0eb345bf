// The VRF outputs that the chip approved, which paper 01 calls the sheet.
ghost use Rattle.std.specs.Prelude.{◌≡◌};
ghost use Rattle.lists.specs.Choice.{is_some};
ghost use Rattle.rules.specs.VrfOutputs.{read_record, read_outputs};
ghost use Rattle.inputs.specs.VrfOutputs.{IsRecordOf, IsOfSomeRecord};

// The bytes of a version, of an output, and of a record of the two.
const VERSION: usize = 4;

const OUTPUT: usize = 32;

const RECORD: usize = VERSION + OUTPUT;

// The output of a version, and the number of its record, counted from 0.
#[derive(Clone, Copy)]
pub struct FoundOutput {
    pub index: usize,
    pub output: [u8; OUTPUT],
}

// Whether the outputs are whole records with rising versions.
pub fn outputs_rise(outputs: &[u8]) -> bool
    ensures { result ≡ is_some (read_outputs outputs.now) }
{
    let (records, rest) = outputs.as_chunks::<RECORD>();
    if rest.len() != 0 {
        return false;
    }
    records.is_sorted_by(|a, b| version_of(a) < version_of(b))
}

// The output of a version, found by halving. Of bytes that are no outputs it is that of some record
// of the version, or none.
// By hand: `binary_search_by_key` goes on past a record of the version, and so names another one
// where versions do not rise.
pub fn find_output(outputs: &[u8], version: u32) -> Option<FoundOutput>
    ensures rising { IsRecordOf outputs.now version result }
    ensures any { IsOfSomeRecord outputs.now version result }
{
    let (records, _) = outputs.as_chunks::<RECORD>();
    let mut low: usize = 0;
    let mut high: usize = records.len();
    while low < high {
        let middle = low + (high - low) / 2;
        let there = version_of(&records[middle]);
        if there == version {
            return Some(FoundOutput {
                index: middle,
                output: output_of(&records[middle]),
            });
        }
        if there < version {
            low = middle + 1;
        } else {
            high = middle;
        }
    }
    None
}

// The version of a record.
fn version_of(bytes: &[u8; RECORD]) -> u32
    ensures { result ≡ (read_record bytes.now).version }
{
    u32::from_be_bytes([bytes[0], bytes[1], bytes[2], bytes[3]])
}

// The output of a record.
fn output_of(bytes: &[u8; RECORD]) -> [u8; OUTPUT]
    ensures { result ≡ (read_record bytes.now).output }
{
    let mut output = [0u8; OUTPUT];
    output.copy_from_slice(&bytes[VERSION..]);
    output
}
