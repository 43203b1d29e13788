// What a run spends: the cost of a command, the checks 21 to 26 before it, and what is paid after it. No row and no share is looked at.
#![tactic(auto)]

pub mod check;
pub mod cost;
pub mod counts;
pub mod spent;
