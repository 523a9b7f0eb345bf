// The kinds of examples, by their numbers in the file.
#[derive(Clone, Copy)]
pub(crate) enum Kind {
    Number = 1,
    HexLength = 2,
    Digest = 3,
    Word = 4,
    NumberAt = 5,
    Bytes = 6,
    Field = 7,
    Span = 8,
    Line = 9,
    PutBytes = 10,
    PutDecimal = 11,
    PutHex = 12,
    PutDecoded = 13,
    Configuration = 14,
    Outputs = 15,
    Output = 16,
    NewState = 17,
    StateText = 18,
    UnusedRoom = 19,
    Response = 20,
}

// All kinds.
const KINDS: [Kind; 20] = [
    Kind::Number,
    Kind::HexLength,
    Kind::Digest,
    Kind::Word,
    Kind::NumberAt,
    Kind::Bytes,
    Kind::Field,
    Kind::Span,
    Kind::Line,
    Kind::PutBytes,
    Kind::PutDecimal,
    Kind::PutHex,
    Kind::PutDecoded,
    Kind::Configuration,
    Kind::Outputs,
    Kind::Output,
    Kind::NewState,
    Kind::StateText,
    Kind::UnusedRoom,
    Kind::Response,
];

// A number that no kind has.
#[derive(Clone, Copy)]
pub(crate) struct UnknownKind;

impl TryFrom<u64> for Kind {
    type Error = UnknownKind;

    fn try_from(number: u64) -> Result<Kind, UnknownKind> {
        for kind in KINDS {
            if kind as u64 == number {
                return Ok(kind);
            }
        }
        Err(UnknownKind)
    }
}
