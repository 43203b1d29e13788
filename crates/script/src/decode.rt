// What stands at a place of a script: END, a command, or 9 for "a command byte over 0D" (over 0E by request 7), 10 for "operands cut off" and for a
// script that has ended, 11 for "an operand out of range".
ghost use Rattle.std.specs.Prelude.{◌≡◌, List, ℕ, ◌≤◌, length, Err};
ghost use Rattle.model.specs.Script as Script;
ghost use Rattle.script.specs.Meaning.{standing, standing_of};

use crate::command::Line;
use crate::{operands, ranges};
use refusals::{Refusal, Refused};

const LAST_BYTE: usize = 14;

// What END and each command take, by their bytes.
const SIZES: [usize; 15] = [1, 2, 6, 4, 4, 7, 4, 5, 5, 4, 8, 5, 2, 8, 5];

// How many bytes END or a command takes, by its own byte.
#[tactic(auto, using(crate::proofs::Sizes::size_known))]
fn size_of(op: usize) -> usize
    requires { op ≤ Script.last_byte }
    ensures { (s : List ℕ) (i : ℕ) → result ≡ (Script.byte_says s i op).0 }
{
    SIZES[op]
}

fn refused(refusal: Refusal, place: usize) -> Result<Option<Line>, Refused>
    ensures { result ≡ Err (record { refusal = refusal; place = place }) }
{
    Err(Refused { refusal, place })
}

// What stands at a place, None for END; largest is the field's largest k. Bytes after END are refused, "the offset just after END" being their place.
pub fn decode(p: u32, largest: u32, s: &[u8], at: usize) -> Result<Option<Line>, Refused>
    ensures { standing_of at result ≡ standing (Script.reading_at p largest s.now at) (length s.now) at }
{
    if s.len() <= at {
        return refused(Refusal::BadEnd, at);
    }
    let op = usize::from(s[at]);
    if LAST_BYTE < op {
        return refused(Refusal::BadCommand, at);
    }
    let size = size_of(op);
    if s.len() - at < size {
        return refused(Refusal::BadEnd, at);
    }
    let next = at + size;
    if op == 0 {
        if next < s.len() {
            return refused(Refusal::BadEnd, next);
        }
        return Ok(None);
    }
    let command = operands::command_at(s, at, op);
    if !ranges::in_range(p, largest, command) {
        return refused(Refusal::OutOfRange, at);
    }
    Ok(Some(Line { command, next }))
}
