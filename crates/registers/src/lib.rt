// The table of registers, and what each kind of command does to it.
#![tactic(auto)]

pub mod cutting;
pub mod linear;
pub mod opening;
pub mod table;
