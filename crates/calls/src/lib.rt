// Calls from an exchange's list: "Members' exchanges export comma-separated lists as RFC 4180 describes".
#![tactic(auto)]

mod call;
mod field;
mod letters;
mod line;
mod time;

ghost use Rattle.std.specs.Prelude.{◌≡◌, ◌≤◌, length};
ghost use Rattle.model.specs.Calls as Calls;
ghost use Rattle.calls.specs.Meaning.{Turned, import_of};

use crate::line::read_line;
use refusals::Refusal;

// "The number (0 when done) and the calls written": calls are written also where a line after theirs is refused.
#[derive(Clone, Copy, Debug, PartialEq, Eq)]
pub struct Imported {
    pub ended: Result<(), Refusal>,
    pub calls: usize,
}

// A call's seconds, and the place after its line.
#[derive(Clone, Copy, Debug, PartialEq, Eq)]
struct Turn {
    seconds: u32,
    next: usize,
}

// The line from a place on, with so many places left in the buffer.
fn take_line(list: &[u8], at: usize, room: usize) -> Result<Turn, Refusal>
    requires { at ≤ length list.now }
    ensures { Turned list.now at room result }
{
    let line = read_line(&list[at..]).ok_or(Refusal::BadLine)?;
    let seconds = line.call.ok_or(Refusal::BadTime)?;
    if room == 0 {
        return Err(Refusal::SecondsFull);
    }
    Ok(Turn {
        seconds,
        next: at + line.next,
    })
}

// Writes the seconds of the list's calls, line by line, to the start of the buffer.
pub fn import(list: &[u8], out: &mut [u32]) -> Imported
    ensures { import_of result out.new ≡ Calls.imported list.now out.old }
{
    let mut at = 0;
    let mut calls = 0;
    while at < list.len() {
        match take_line(list, at, out.len() - calls) {
            Ok(turn) => {
                out[calls] = turn.seconds;
                calls += 1;
                at = turn.next;
            }
            Err(refusal) => {
                return Imported {
                    ended: Err(refusal),
                    calls,
                };
            }
        }
    }
    Imported {
        ended: Ok(()),
        calls,
    }
}
