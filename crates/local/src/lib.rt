// What each party does on its own shares, by rows: nothing here is opened.
#![tactic(auto)]

pub mod bits;
pub mod comparison;
pub mod product;
pub mod remainder;
