// The fourteen commands with their operands: registers, k, m, w, h and v as paper and request 7 name them.
#[derive(Clone, Copy, Debug, PartialEq, Eq)]
pub enum Command {
    Load {
        d: usize,
    },
    Const {
        d: usize,
        v: u32,
    },
    Add {
        d: usize,
        a: usize,
        b: usize,
    },
    Sub {
        d: usize,
        a: usize,
        b: usize,
    },
    Scale {
        d: usize,
        a: usize,
        v: u32,
    },
    Mul {
        d: usize,
        a: usize,
        b: usize,
    },
    Mod {
        d: usize,
        a: usize,
        k: u32,
        m: u32,
    },
    Trunc {
        d: usize,
        a: usize,
        k: u32,
        m: u32,
    },
    Ltz {
        d: usize,
        a: usize,
        k: u32,
    },
    Over {
        d: usize,
        a: usize,
        k: u32,
        v: u32,
    },
    Blocks {
        d: usize,
        a: usize,
        k: u32,
        m: u32,
    },
    Reveal {
        a: usize,
    },
    Bitlt {
        d: usize,
        b: usize,
        w: usize,
        v: u32,
    },
    Ltzs {
        d: usize,
        a: usize,
        h: usize,
        k: u32,
    },
}

// A command of a script, and the place after it.
#[derive(Clone, Copy, Debug, PartialEq, Eq)]
pub struct Line {
    pub command: Command,
    pub next: usize,
}
