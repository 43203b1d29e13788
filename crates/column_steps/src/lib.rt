// The paper's steps on one party's column: it works its own shares, as rows of one share, and reads each opening from the record.
#![tactic(auto)]

pub mod column;
pub mod comparison;
pub mod cut;
pub mod product;
pub mod remainder;
