// The reasons for which something is refused, each with its number by the paper and by the requests.
#![tactic(auto)]

ghost use Rattle.std.specs.Prelude.{◌≡◌};
ghost use Rattle.refusals.specs.Numbers.{number_of, told};

// In the order of their numbers, and named as in the header for C.
#[derive(Clone, Copy, Debug, PartialEq, Eq)]
pub enum Refusal {
    NoHeader,
    BadField,
    BadParties,
    BadLength,
    NotBelowP,
    NoSharing,
    BadMask,
    BadTriple,
    BadCommand,
    BadEnd,
    OutOfRange,
    BadPresent,
    OutputShort,
    Unset,
    NoInput,
    NoMask,
    TooFewTriples,
    RecordFull,
    RevealedFull,
    BadLine,
    BadTime,
    SecondsFull,
    OwnShareDiffers,
    BadOpening,
    RecordShort,
}

impl From<Refusal> for u32 {
    ghost from_gives = { λ refusal number. number ≡ number_of refusal };

    fn from(refusal: Refusal) -> u32 {
        match refusal {
            Refusal::NoHeader => 1,
            Refusal::BadField => 2,
            Refusal::BadParties => 3,
            Refusal::BadLength => 4,
            Refusal::NotBelowP => 5,
            Refusal::NoSharing => 6,
            Refusal::BadMask => 7,
            Refusal::BadTriple => 8,
            Refusal::BadCommand => 9,
            Refusal::BadEnd => 10,
            Refusal::OutOfRange => 11,
            Refusal::BadPresent => 12,
            Refusal::OutputShort => 15,
            Refusal::Unset => 21,
            Refusal::NoInput => 22,
            Refusal::NoMask => 23,
            Refusal::TooFewTriples => 24,
            Refusal::RecordFull => 25,
            Refusal::RevealedFull => 26,
            Refusal::BadLine => 31,
            Refusal::BadTime => 32,
            Refusal::SecondsFull => 33,
            Refusal::OwnShareDiffers => 41,
            Refusal::BadOpening => 42,
            Refusal::RecordShort => 43,
        }
    }
}

// The number of an answer: "0 when done".
pub fn number<A>(answer: &Result<A, Refusal>) -> u32
    ensures { result ≡ told answer.now }
{
    match answer {
        Ok(_) => 0,
        Err(refusal) => u32::from(*refusal),
    }
}

// A refusal, and the place in a script for which it is given.
#[derive(Clone, Copy, Debug, PartialEq, Eq)]
pub struct Refused {
    pub refusal: Refusal,
    pub place: usize,
}
