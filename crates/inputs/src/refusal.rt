// The sixteen refusals by name (paper 01, Sixteen numbers); include/kt.h has the same names for C.
ghost use Rattle.std.specs.Prelude.{◌≡◌};
ghost use Rattle.inputs.specs.Refusal.{refusal_number};

// Why a call is refused, with the number by which the paper and C know it.
#[derive(Clone, Copy, PartialEq, Eq)]
pub enum Refusal {
    // An input is too long, the identifier has another length, or too little room is lent for a
    // state's text.
    Length = 1,

    // The configuration does not read, or has another suite or mode.
    Configuration = 2,

    // The state is not valid.
    State = 3,

    // The VRF outputs are not whole records with rising versions.
    VrfOutputs = 4,

    // The response breaks the line rules or a field's length.
    Lines = 5,

    // Kind, identifier or label is not the asked one.
    Request = 6,

    // The log is empty, too large, or smaller than the kept one.
    TreeSize = 7,

    // The version of a search is none, or below one in the map.
    Target = 8,

    // Steps, commitments, entries, lookups or nodes are not as asked.
    Shape = 9,

    // The version of a step has no VRF output.
    MissingOutput = 10,

    // Times fall, or do not fit the kept time or the clock.
    Time = 11,

    // A lookup does not reach its prefix root.
    Lookup = 12,

    // The lookups do not show what they must.
    Ladder = 13,

    // A kept value differs.
    FullSubtree = 14,

    // The signed text differs.
    SignedText = 15,

    // There is too little room for the value, the map or the signed text.
    Room = 16,
}

impl Refusal {
    // Its number in the paper.
    pub fn number(self) -> u64
        ensures { result ≡ refusal_number self }
    {
        self as u64
    }
}
