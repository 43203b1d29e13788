// The bytes of RFC 4180's grammar, and the digits of a time.
ghost use Rattle.std.specs.Prelude.{◌≡◌};
ghost use Rattle.model.specs.Calls as Calls;

pub const COMMA: u8 = 0x2C;

pub const CR: u8 = 0x0D;

pub const DQUOTE: u8 = 0x22;

pub const LF: u8 = 0x0A;

// "TEXTDATA = %x20-21 / %x23-2B / %x2D-7E". Each byte of a field is tested here, but for its quotes. One `matches!` with the three ranges would be a search
// among six bounds, with which an import of long plain names takes four times as long.
#[tactic(auto, unfolding(model::specs::Calls::is_textdata))]
pub fn is_textdata(b: u8) -> bool
    ensures { result ≡ Calls.is_textdata b }
{
    matches!(b, 0x20..=0x21) || matches!(b, 0x23..=0x2B) || matches!(b, 0x2D..=0x7E)
}

// What may stand alone between quotes.
#[tactic(auto, unfolding(model::specs::Calls::alone))]
pub fn is_alone(b: u8) -> bool
    ensures { result ≡ Calls.alone b }
{
    is_textdata(b) || matches!(b, COMMA | CR | LF)
}

#[tactic(auto, unfolding(model::specs::Calls::is_digit))]
pub fn is_digit(b: u8) -> bool
    ensures { result ≡ Calls.is_digit b }
{
    matches!(b, 0x30..=0x39)
}
