// Standard input, whole or not at all.
ghost use Rattle.std.specs.Prelude.{◌<◌, IfOk, length};

use crate::failure::Failure;
use std::io::{Read, Stdin};

// All bytes up to the input's end: how many there are. A read that brings no byte is the end, unless it failed; there is room for a byte more.
pub fn read_all(mut stdin: Stdin, list: &mut [u8]) -> Result<usize, Failure>
    ensures { IfOk result (λ n. n < length list.old) }
{
    let mut done = 0;
    while done < list.len() {
        match stdin.read(&mut list[done..]) {
            Ok(0) => return Ok(done),
            Ok(bytes) => done += bytes,
            Err(_) => return Err(Failure::CannotRead),
        }
    }
    Err(Failure::TooLong)
}
