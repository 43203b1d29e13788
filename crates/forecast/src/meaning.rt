// What the number of a forecast means, by the script: 0, 9 to 11, and 21 to 24.
ghost use Rattle.std.specs.Prelude.{◌≤◌};

use crate::amounts::{All, Plain, parts_of};
use crate::{names, needs};
use costs::counts::Counts;
use forecasting::lines::Foreseen;
use refusals::Refusal;
use report::text::{line, put};
use script::decode;
use sheet::frame::Frame;

pub fn explain(f: Frame, script: &[u8], found: Foreseen<Refusal>)
    requires { (f.l ≤ 31) × (f.largest ≤ 30) }
{
    match found.ended {
        Ok(()) => comes_to_end(f, found.spent.counts),
        Err(Refusal::BadCommand) => no_command(script, found.place),
        Err(Refusal::BadEnd) => no_end(f, script, found.place),
        Err(Refusal::OutOfRange) => out_of_range(script, found.place),
        Err(_) => needs::missing(f, script, found),
    }
}

fn comes_to_end(f: Frame, spent: Counts) {
    let parts = All(parts_of(spent, needs::there(f)));
    line(format_args!("By header and script the run comes to END. It takes {parts}.",));
}

fn no_command(script: &[u8], at: usize) {
    put(format_args!("The byte at {at}"));
    if let Some(byte) = script.get(at) {
        put(format_args!(" is {byte}"));
    }
    line(", and the last command is 14.");
}

// Where reading the script stops: at END, or at what is refused.
#[tactic(auto, using(script::proofs::Lines::closer))]
fn stops_at(f: Frame, script: &[u8]) -> usize {
    let mut at = 0;
    while let Ok(Some(line)) = decode::decode(f.p, f.largest, script, at) {
        at = line.next;
    }
    at
}

// No END, operands cut off, or bytes after END, whose place is not where reading stops.
fn no_end(f: Frame, script: &[u8], place: usize) {
    if place == script.len() {
        let size = Plain(place, "byte");
        line(format_args!("The script has {size} and no END."));
    } else if stops_at(f, script) == place {
        let command = names::command(script, place);
        line(format_args!("{command} is cut off by the script's end."));
    } else {
        line(format_args!("Bytes follow END, from {place} on."));
    }
}

fn out_of_range(script: &[u8], at: usize) {
    let command = names::command(script, at);
    line(format_args!("{command} has an operand out of range."));
}
