// The script: its commands, the decoder, and the refusals 9 to 11.
#![tactic(auto)]

pub mod check;
pub mod command;
pub mod decode;
mod operands;
mod ranges;
