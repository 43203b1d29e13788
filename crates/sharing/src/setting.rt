// What rows and steps are worked with, by value: the field's modulus, the bits of a mask, the parties, the threshold, and how openings are worked.
use presence::Opening;

#[derive(Clone, Copy)]
pub struct Setting {
    pub p: u32,
    pub l: usize,
    pub n: usize,
    pub t: usize,
    pub opening: Opening,
}
