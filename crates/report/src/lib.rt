// What the programs share: how they go through the cases of an input, and what they write on standard output. No contract can speak of what is written,
// so these functions promise nothing of it; the programs' stored output is compared byte for byte.
#![tactic(auto)]

pub mod cases;
pub mod lines;
pub mod text;
