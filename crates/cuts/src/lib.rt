// The commands that rest on MOD, by rows: the remainder of a row made of the operand, and a row made of the remainder.
#![tactic(auto)]

pub mod cut;
