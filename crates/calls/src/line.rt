// "A line is one record of the RFC's grammar", here with "four fields (line name, dialled, answered, ended)".
ghost use Rattle.std.specs.Prelude.{◌≡◌, ◌≤◌, IfSome, length, drop};
ghost use Rattle.model.specs.Calls as Calls;
ghost use Rattle.calls.specs.Meaning.{line_of, EndsAt};

use crate::call::call_between;
use crate::field::{read_field, read_next, stands};
use crate::letters::{CR, LF};

// The place after the line break, where a line ends here.
fn read_end(text: &[u8], at: usize) -> Option<usize>
    requires { at ≤ length text.now }
    ensures { EndsAt text.now at result }
{
    if at == text.len() {
        Some(at)
    } else if stands(text, at, CR) && stands(text, at + 1, LF) {
        Some(at + 2)
    } else {
        None
    }
}

// A line's call, its seconds where its times are good, and the place after the line.
#[derive(Clone, Copy, Debug, PartialEq, Eq)]
pub struct Line {
    pub call: Option<u32>,
    pub next: usize,
}

// The line of four fields at the text's start.
pub fn read_line(text: &[u8]) -> Option<Line>
    ensures read { line_of text.now result ≡ Calls.line_at text.now }
    ensures within { IfSome result (λ line. line.next ≤ length text.now) }
{
    let name = read_field(text)?;
    let dialled = read_next(text, name)?;
    let answered = read_next(text, dialled)?;
    let ended = read_next(text, answered)?;
    let next = read_end(text, ended.next)?;
    Some(Line {
        call: call_between(dialled.time, answered.time, ended.time),
        next,
    })
}
