// A command's operands, read from the bytes after its own: "d, a, b are one-byte registers 0 to 63; k, m, w one byte; v four bytes", and of LTZS "h is a
// one-byte count".
ghost use Rattle.std.specs.Prelude.{◌≡◌, ◌+◌, ◌≤◌, length, get_or};
ghost use Rattle.model.specs.Script as Script;
ghost use Rattle.script.specs.Meaning.{meant};

use crate::command::Command;

// Byte j of the command at a place, or 0 where the script has ended.
fn operand(s: &[u8], at: usize, j: usize) -> u8
    requires { at ≤ length s.now }
    ensures { result ≡ get_or s.now (at + j) 0 }
{
    if j < s.len() - at { s[at + j] } else { 0 }
}

// The command at a place whose byte is op, 1 to 14, where it is whole.
#[tactic(auto, unfolding(model::specs::Script::byte_says))]
pub fn command_at(s: &[u8], at: usize, op: usize) -> Command
    requires { (1 ≤ op) × (op ≤ Script.last_byte) × (at + (Script.byte_says s.now at op).0 ≤ length s.now) }
    ensures { Script.does (meant result) ≡ (Script.byte_says s.now at op).1 }
{
    let d = usize::from(operand(s, at, 1));
    let a = usize::from(operand(s, at, 2));
    let third = operand(s, at, 3);
    let b = usize::from(third);
    let k = u32::from(third);
    let fourth = u32::from(operand(s, at, 4));
    match op {
        1 => Command::Load { d },
        2 => Command::Const {
            d,
            v: words::word(s, at + 2),
        },
        3 => Command::Add { d, a, b },
        4 => Command::Sub { d, a, b },
        5 => Command::Scale {
            d,
            a,
            v: words::word(s, at + 3),
        },
        6 => Command::Mul { d, a, b },
        7 => Command::Mod { d, a, k, m: fourth },
        8 => Command::Trunc { d, a, k, m: fourth },
        9 => Command::Ltz { d, a, k },
        10 => Command::Over {
            d,
            a,
            k,
            v: words::word(s, at + 4),
        },
        11 => Command::Blocks { d, a, k, m: fourth },
        12 => Command::Reveal { a: d },
        13 => Command::Bitlt {
            d,
            b: a,
            w: b,
            v: words::word(s, at + 4),
        },
        _ => Command::Ltzs {
            d,
            a,
            h: b,
            k: fourth,
        },
    }
}
