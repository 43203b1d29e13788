// The script machine: a command performed and paid, and the run of a sheet.
#![tactic(auto)]

pub mod run;
pub mod step;
