// A case and its answer on standard output.
ghost use Rattle.std.specs.Prelude.{◌*◌, ◌≤◌, length};

use crate::numbers::word;
use report::lines;
use report::text::put;
use secret::Row;

// The paper's name of a command.
fn name(step: u32) -> &'static str {
    match step {
        6 => "MUL",
        7 => "MOD",
        8 => "TRUNC",
        9 => "LTZ",
        10 => "OVER",
        11 => "BLOCKS",
        _ => "BITLT",
    }
}

fn arguments(s: &[u8])
    requires { 40 ≤ length s.now }
{
    put(format_args!(
        "{} field {} parties {} threshold {} k {} m {} v {}",
        name(word(s, 0)),
        word(s, 1),
        word(s, 2),
        word(s, 3),
        word(s, 4),
        word(s, 5),
        word(s, 6),
    ));
}

// The case, the row left, and the rows opened, so many from the start of the part.
pub fn answer(s: &[u8], n: usize, row: Row, part: &[u32], openings: usize)
    requires { (40 ≤ length s.now) × (n ≤ 7) × (openings * n ≤ length part.now) }
{
    arguments(s);
    lines::rows(b" : left", n, 1, &row.shares[..]);
    lines::opened(n, openings, part);
}
