// The commands on one party's column: a table of one column, whose openings are read from the record.
#![tactic(auto)]

pub mod opening;
pub mod own;
pub mod perform;
pub mod signs;
