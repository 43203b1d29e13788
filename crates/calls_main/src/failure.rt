// Why the program fails, each with its message.
use std::fmt;

#[derive(Clone, Copy, Debug, PartialEq, Eq)]
pub enum Failure {
    // The list filled the room for it, so that the input's end was not seen.
    TooLong,
    CannotRead,
    CannotWrite,
}

impl fmt::Display for Failure {
    fn fmt<W: fmt::Write>(&self, f: &mut fmt::Formatter<W>) -> fmt::Result {
        match self {
            Failure::TooLong => write!(f, "the list is longer than 524288 bytes"),
            Failure::CannotRead => write!(f, "standard input cannot be read"),
            Failure::CannotWrite => write!(f, "standard output cannot be written"),
        }
    }
}
