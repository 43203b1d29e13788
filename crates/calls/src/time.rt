// "A time is one to seven digits."
ghost use Rattle.std.specs.Prelude.{◌≡◌};
ghost use Rattle.model.specs.Calls as Calls;
ghost use Rattle.calls.specs.Meaning.{time_of};

use crate::letters;

// A field's value as a time: none, a second of the quarter, or malformed. Malformed is no refusal: a line's name need not be a time.
#[derive(Clone, Copy, Debug, PartialEq, Eq)]
pub enum Time {
    Absent,
    At(u32),
    Malformed,
}

// The digits that a time has at most.
const DIGITS: usize = 7;

pub fn read_time(text: &[u8]) -> Time
    ensures { time_of result ≡ Calls.time text.now }
{
    if text.is_empty() {
        return Time::Absent;
    }
    if DIGITS < text.len() {
        return Time::Malformed;
    }
    let mut value = 0;
    for &b in text {
        if !letters::is_digit(b) {
            return Time::Malformed;
        }
        value = 10 * value + u32::from(b - b'0');
    }
    Time::At(value)
}
