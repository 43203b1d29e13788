// The names of the commands, by paper and request 7.
use std::fmt;
use std::fmt::{Display, Formatter, Write};

#[derive(Drop)]
struct Name(u8);

impl Display for Name {
    fn fmt<W: Write>(&self, f: &mut Formatter<W>) -> fmt::Result {
        f.write_str(match self.0 {
            0 => "END",
            1 => "LOAD",
            2 => "CONST",
            3 => "ADD",
            4 => "SUB",
            5 => "SCALE",
            6 => "MUL",
            7 => "MOD",
            8 => "TRUNC",
            9 => "LTZ",
            10 => "OVER",
            11 => "BLOCKS",
            12 => "REVEAL",
            13 => "BITLT",
            14 => "LTZS",
            op => return write!(f, "byte {op}"),
        })
    }
}

// `BLOCKS at 16`: the command at a place of a script.
#[derive(Drop)]
pub struct Placed {
    op: Option<u8>,
    at: usize,
}

pub fn command(script: &[u8], at: usize) -> Placed {
    Placed {
        op: script.get(at).copied(),
        at,
    }
}

impl Display for Placed {
    fn fmt<W: Write>(&self, f: &mut Formatter<W>) -> fmt::Result {
        if let Some(op) = self.op {
            write!(f, "{}", Name(op))?;
        }
        write!(f, " at {}", self.at)
    }
}
