// Text on standard output.
use std::fmt;
use std::fmt::{Display, Formatter, Write};

const STDOUT_FILENO: i32 = 1;

#[derive(Drop)]
struct Output;

impl Write for Output {
    fn write_str(&mut self, s: &str) -> fmt::Result {
        bytes(s.as_bytes());
        Ok(())
    }
}

// Bytes as they are. A write that fails is passed over: what follows is written all the same.
pub fn bytes(text: &[u8]) {
    let _ = io::write_all(STDOUT_FILENO, text);
}

pub fn put<D: Display + Drop>(text: D) {
    let _ = Output.write(text);
}

pub fn line<D: Display + Drop>(text: D) {
    let _ = Output.writeln(text);
}

// Each number of a list after a space.
#[derive(Drop)]
pub struct Spaced<'a, T>(pub &'a [T]);

impl<T: Display> Display for Spaced<'_, T> {
    fn fmt<W: Write>(&self, f: &mut Formatter<W>) -> fmt::Result {
        for x in self.0 {
            write!(f, " {x}")?;
        }
        Ok(())
    }
}
