// The most bytes of what a call is given (paper 01, Sixteen numbers: 1); the state's are
// State::TEXT.
#[derive(Clone, Copy)]
pub struct InputLimit {}

impl InputLimit {
    pub const RESPONSE: usize = 1048576;

    pub const CONFIGURATION: usize = 2048;

    pub const SIGNED_TEXT: usize = 2088;

    pub const VRF_OUTPUTS: usize = 36864;
}
