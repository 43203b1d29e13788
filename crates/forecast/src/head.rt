// What the number of a forecast means, by the header: 1 to 4, and by the script where none of these refuses.
ghost use Rattle.std.specs.Prelude.{◌≤◌};
ghost use Rattle.model.specs.Sheet.{header_of};
ghost use Rattle.sheet.specs.Framed.{Headed};

use crate::amounts::Plain;
use crate::meaning;
use forecasting::lines::Foreseen;
use refusals::Refusal;
use report::text::{line, put};
use sheet::frame::Frame;

// `BYTES_READ` of main.rt once more, which no contract ties to it: so many bytes are read at most, and the input may have more.
const MOST_READ: usize = 59724;

fn input_has(head: &[u8]) {
    let size = head.len();
    let more = if size == MOST_READ { " or more" } else { "" };
    put(format_args!("The input has {}{more}", Plain(size, "byte")));
}

// 1, 2, 3, or 4 for a count.
pub fn refused(head: &[u8], refusal: Refusal) {
    match refusal {
        Refusal::NoHeader => no_header(head),
        Refusal::BadField => field(head),
        Refusal::BadParties => parties(head),
        Refusal::BadLength => limits(head),
        _ => put(format_args!("The number is {}", u32::from(refusal))),
    }
    line(".");
}

fn no_header(head: &[u8]) {
    input_has(head);
    put(", and a header has 11");
}

// A byte of the header, or 0 past the input's end.
fn byte(head: &[u8], i: usize) -> u8 {
    head.get(i).copied().unwrap_or(0)
}

fn field(head: &[u8]) {
    let field = byte(head, 0);
    put(format_args!("Byte 0, the field, is {field}: it may be 0 to 3",));
}

fn parties(head: &[u8]) {
    let n = byte(head, 1);
    let t = byte(head, 2);
    put(format_args!(
        "Byte 1, n, is {n}, and byte 2, t, is {t}: n may be 3 to 7, t is at least 1, and 2t + 1 at most n",
    ));
}

// A count of the header, in two bytes.
fn limited(head: &[u8], i: usize, name: &'static str, most: usize)
    requires { i ≤ 9 }
{
    let n = usize::from(byte(head, i)) + 256 * usize::from(byte(head, i + 1));
    put(format_args!("{} of at most {most}", Plain(n, name)));
}

fn limits(head: &[u8]) {
    put("A count is over its limit: ");
    limited(head, 3, "input row", 64);
    put(", ");
    limited(head, 5, "mask", 16);
    put(", ");
    limited(head, 7, "triple", 512);
    put(", ");
    limited(head, 9, "script byte", 1024);
}

// 4 for the length.
fn wrong_length(head: &[u8], f: Frame)
    requires { Headed (header_of head.now) f }
{
    input_has(head);
    line(format_args!(
        ": header and script have {}, and a whole sheet has {}.",
        f.input,
        sheet::implied_length(head, f),
    ));
}

// 4 for the length, or by the script.
#[tactic(auto, using(forecasting::proofs::Heads::bounds))]
pub fn accepted(head: &[u8], f: Frame, found: Foreseen<Refusal>)
    requires { Headed (header_of head.now) f }
{
    let end = f.input;
    if head.len() == end {
        let from = end - f.script;
        meaning::explain(f, &head[from..end], found);
    } else {
        wrong_length(head, f);
    }
}
