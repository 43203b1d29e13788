// Says of the header and script on standard input, or of those of the sheet there, whether a run would come to END, and in words what is missing.
#![tactic(auto)]

mod amounts;
mod cutting;
mod head;
mod meaning;
mod names;
mod needs;

ghost use Rattle.std.specs.Prelude.{◌≡◌, ◌≤◌, ◌<◌, length};
ghost use Rattle.figures.specs.Largest.{largest_sheet};
ghost use Rattle.model.specs.Forecast as Paper;
ghost use Rattle.forecasting.specs.Forecasting.{foreseen_of};
ghost use Rattle.forecast.specs.Taken.{taken};

use forecasting::lines::Foreseen;
use refusals::{Refusal, number};
use report::text::line;
use sheet::header;

// One byte more than the largest sheet has.
const BYTES_READ: usize = 59724;

fn main() {
    let mut input = [0u8; BYTES_READ];
    let got = io::read_full(0, &mut input);
    tell_read(&input, got);
}

// The bytes that were read. An input that is longer than what is read is longer than the largest sheet too. It is then no whole sheet (`most` in
// crates/figures/specs/Largest.antt), so all of it is taken, and its first bytes have the whole input's answer: `forecast_cut` there.
fn tell_read(input: &[u8], got: usize)
    requires { (largest_sheet < length input.now) × (got ≤ length input.now) }
{
    tell(&input[..got]);
}

// The forecast's number and place, and what they mean.
#[tactic(auto, using(crate::proofs::Taking::part_length))]
fn tell(input: &[u8]) {
    let found = foresee_taken(input);
    line(format_args!("end {} at {}", number(&found.ended), found.place));
    let size = cutting::head_length(input);
    explain(&input[..size], found);
}

// The forecast of what is taken of the input: header and script of a whole sheet, else all.
#[tactic(auto, using(crate::proofs::Taking::part_length, crate::proofs::Taking::of_part))]
fn foresee_taken(input: &[u8]) -> Foreseen<Refusal>
    ensures { foreseen_of result ≡ Paper.foreseen (taken input.now) }
{
    let size = cutting::head_length(input);
    forecasting::foresee(&input[..size])
}

fn explain(head: &[u8], found: Foreseen<Refusal>) {
    match header::read_header(head) {
        Ok(f) => head::accepted(head, f, found),
        Err(refusal) => head::refused(head, refusal),
    }
}
