// The paper's steps, by rows. Masks and triples are read from a sheet's bytes, and opened shares go to the record, both at the next places.
#![tactic(auto)]

pub mod comparison;
pub mod opening;
pub mod places;
pub mod product;
pub mod remainder;
