// Program `calls`: the seconds of the calls in the list on standard input, one to a line, and how the list ended.
#![tactic(auto)]

mod failure;
mod input;
mod output;

ghost use Rattle.std.specs.Prelude.{◌+◌, ◌*◌, ◌≤◌, ◌<◌, length};
ghost use Rattle.calls_main.specs.Reading.{Ample};

use calls::Imported;
use failure::Failure;
use input::read_all;
use output::print_calls;
use std::process::ExitCode;

// The longest list that is read whole has 524,288 bytes. Room for one more shows that none follows.
const BYTES_READ: usize = 524289;

// No list that is read whole has more calls: one takes five bytes at least, as ,0,,0 does, and two for a line break before the next.
const CALLS: usize = 74898;

// The exit status is 0, or 1 where the list was not read whole or not all lines were written.
fn main(rt: HostRuntime) -> ExitCode {
    match calls_main(&rt) {
        Ok(()) => ExitCode::SUCCESS,
        Err(failure) => {
            let _ = eprintln!(rt; "calls: {failure}");
            ExitCode::FAILURE
        }
    }
}

fn calls_main(rt: &HostRuntime) -> Result<(), Failure> {
    let mut list = [0u8; BYTES_READ];
    read_list(rt, &mut list)
}

fn read_list(rt: &HostRuntime, list: &mut [u8; BYTES_READ]) -> Result<(), Failure> {
    let n = read_all(rt.stdin(), list)?;
    import_list(rt, &list[..n])
}

fn import_list(rt: &HostRuntime, list: &[u8]) -> Result<(), Failure>
    requires { length list.now ≤ 524288 }
{
    let mut seconds = [0u32; CALLS];
    let answer = import_ample(list, &mut seconds);
    print_calls(rt, &seconds[..answer.calls], answer.ended).map_err(|_| Failure::CannotWrite)
}

// The import with a buffer that no list of this length outgrows.
fn import_ample(list: &[u8], seconds: &mut [u32]) -> Imported
    requires { length list.now + 2 < 7 * (length seconds.old + 1) }
    ensures { Ample list.now seconds.old result seconds.new }
{
    calls::import(list, seconds)
}
