// What a call is given, read: configuration, VRF outputs, state, response (paper 01, What a call is
// given). Each function's contract is an equation with a definition of the crate rules, through
// what specs/ says of the values that come back.
#![tactic(auto)]

pub mod configuration;
pub mod refusal;
pub mod response;
mod response_header;
pub mod response_lines;
pub mod state;
pub mod state_reader;
pub mod state_writer;
mod text_line;
pub mod vrf_outputs;
