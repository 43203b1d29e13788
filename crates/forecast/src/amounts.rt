// Amounts in words. No contract can speak of what is written.
use costs::counts::Counts;
use std::fmt;
use std::fmt::{Display, Formatter, Write};

// `1 mask`, `26 triples`: the name is that of one.
#[derive(Drop)]
pub struct Plain(pub usize, pub &'static str);

impl Display for Plain {
    fn fmt<W: Write>(&self, f: &mut Formatter<W>) -> fmt::Result {
        let end = if self.0 == 1 { "" } else { "s" };
        write!(f, "{} {}{end}", self.0, self.1)
    }
}

// `0 of 2 masks`: so many, of so many.
#[derive(Drop)]
pub struct Part(usize, usize, &'static str);

impl Display for Part {
    fn fmt<W: Write>(&self, f: &mut Formatter<W>) -> fmt::Result {
        write!(f, "{} of {} {}s", self.0, self.1, self.2)
    }
}

// An amount of each kind.
#[derive(Drop)]
pub struct Kinds<A> {
    inputs: A,
    masks: A,
    triples: A,
}

pub fn amounts_of(x: Counts) -> Kinds<Plain> {
    Kinds {
        inputs: Plain(x.inputs, "input row"),
        masks: Plain(x.masks, "mask"),
        triples: Plain(x.triples, "triple"),
    }
}

pub fn parts_of(x: Counts, all: Counts) -> Kinds<Part> {
    Kinds {
        inputs: Part(x.inputs, all.inputs, "input row"),
        masks: Part(x.masks, all.masks, "mask"),
        triples: Part(x.triples, all.triples, "triple"),
    }
}

// All three kinds.
#[derive(Drop)]
pub struct All<A>(pub Kinds<A>);

impl<A: Display> Display for All<A> {
    fn fmt<W: Write>(&self, f: &mut Formatter<W>) -> fmt::Result {
        let kinds = &self.0;
        write!(f, "{}, {} and {}", kinds.inputs, kinds.masks, kinds.triples)
    }
}

// The kinds that are needed: an input row, or a mask, triples or both, since no command needs an input row and another of these.
#[derive(Drop)]
pub struct Needed<A>(pub Counts, pub Kinds<A>);

impl<A: Display> Display for Needed<A> {
    fn fmt<W: Write>(&self, f: &mut Formatter<W>) -> fmt::Result {
        let need = self.0;
        let kinds = &self.1;
        if need.inputs != 0 {
            write!(f, "{}", kinds.inputs)?;
        }
        if need.masks != 0 {
            write!(f, "{}", kinds.masks)?;
        }
        if need.masks != 0 && need.triples != 0 {
            f.write_str(" and ")?;
        }
        if need.triples != 0 {
            write!(f, "{}", kinds.triples)?;
        }
        Ok(())
    }
}
