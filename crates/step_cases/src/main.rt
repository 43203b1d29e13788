// Runs the cases of standard input through the steps, and prints each case with the row that it leaves and the rows that it opens. A case is,
// as reference/src/steps/case.rs has it, ten words of 4 bytes, little-endian, and the rows that they count.
#![tactic(auto)]

mod masked;
mod numbers;
mod print;
mod step;

use report::cases::each_case;

fn main() {
    let mut input = [0u8; 400000];
    let got = io::read_full(0, &mut input);
    each_case(&input[..got], step::run_case);
}
