// Imports the lists of standard input, and prints all that each import leaves. A case is, as reference/src/calls/case.rs has it, two words of
// 4 bytes, little-endian, the lengths of the list and of the buffer; then the list.
#![tactic(auto)]

ghost use Rattle.std.specs.Prelude.{◌≤◌, ◌<◌, IfSome, length};

use report::cases::each_case;
use report::text::{Spaced, line};

fn main() {
    let mut input = [0u8; 100000];
    let got = io::read_full(0, &mut input);
    each_case(&input[..got], run_case);
}

// Answers what follows the case; nothing where the case is not all there or the buffer is too long.
fn run_case(s: &[u8]) -> Option<&[u8]>
    ensures { IfSome result (λ rest. length rest.now < length s.now) }
{
    let (head, rest) = s.split_at_checked(8)?;
    let size = words::word(head, 0) as usize;
    let room = words::word(head, 4) as usize;
    let (list, rest) = rest.split_at_checked(size)?;
    if 600 < room {
        return None;
    }
    import_list(list, room);
    Some(rest)
}

// Lends a buffer of so many numbers, each 7777777.
fn import_list(list: &[u8], room: usize)
    requires { room ≤ 600 }
{
    let mut buffer = [7777777u32; 600];
    let seconds = &mut buffer[..room];
    let answer = calls::import(list, seconds);
    line(format_args!(
        "end {} calls {}",
        refusals::number(&answer.ended),
        answer.calls,
    ));
    line(format_args!("seconds{}", Spaced(&*seconds)));
}
