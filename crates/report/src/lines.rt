// The paper's lines of a run. What is lent has all the numbers that are to be printed, so that no line is left out.
ghost use Rattle.std.specs.Prelude.{◌*◌, ◌≤◌, length};

use crate::text::{Spaced, bytes, line};
use costs::counts::Counts;

// A line for each row of n numbers, each after the text: so many rows from the start of the list.
pub fn rows(text: &[u8], n: usize, many: usize, xs: &[u32])
    requires { many * n ≤ length xs.now }
{
    for i in 0..many {
        bytes(text);
        line(Spaced(&xs[i * n..(i + 1) * n]));
    }
}

// A line for each opening, whose n shares stand in the record.
pub fn opened(n: usize, openings: usize, log: &[u32])
    requires { openings * n ≤ length log.now }
{
    rows(b"opened", n, openings, log);
}

// A line for each revealed value: so many from the start of the list.
pub fn revealed(field: u32, values: usize, xs: &[u32])
    requires { values ≤ length xs.now }
{
    for &v in &xs[..values] {
        let signed = field::decode(field, v).unwrap_or(0);
        line(format_args!("revealed {v} signed {signed}"));
    }
}

// The last line: number, place and counts.
pub fn end(answer: u32, place: usize, spent: Counts) {
    line(format_args!(
        "end {answer} at {place} inputs {} masks {} triples {} openings {}",
        spent.inputs, spent.masks, spent.triples, spent.openings,
    ));
}
