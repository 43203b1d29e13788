// "Ranges: k from 2 to the field's largest; m from 1 to k − 1; v below p, except in BITLT, where w is 1 to 31, b + w at most 64 and v
// below 2^w". LTZS: "h from 1 to 16, both stretches ending by register 63", and "The two stretches must be equal or share no register."
ghost use Rattle.std.specs.Prelude.{◌≡◌, [], ◌∷◌, ◌+◌, ◌^◌};
ghost use Rattle.model.specs.Script as Script;
ghost use Rattle.script.specs.Meaning.{meant};

use crate::command::Command;

// BITLT. b + w and 2^w are computed once b and w are known to be small.
#[tactic(auto, unfolding(model::specs::Script::all_pass))]
fn bits_in(d: usize, b: usize, w: usize, v: u32) -> bool
    ensures { result ≡ Script.all_pass (Script.register d ∷ Script.register b ∷ Script.at_most 1 w ∷ Script.at_most w 31 ∷ Script.at_most (b + w) 64 ∷ Script.below v (2 ^ w) ∷ []) }
{
    d < 64 && b < 64 && 1 <= w && w <= 31 && b + w <= 64 && v < (1 << w)
}

// Stretches of h registers from d and from a on are equal or share no register. Differences, unlike sums, fit whatever the numbers are.
fn equal_or_apart(d: usize, a: usize, h: usize) -> bool
    ensures { result ≡ Script.passes (Script.equal_or_apart d a h) }
{
    d == a || (d < a && h <= a - d) || (a < d && h <= d - a)
}

// LTZS.
#[tactic(auto, unfolding(model::specs::Script::all_pass))]
fn stretches_in(largest: u32, d: usize, a: usize, h: usize, k: u32) -> bool
    ensures { result ≡ Script.all_pass (Script.at_most 1 h ∷ Script.at_most h 16 ∷ Script.at_most (d + h) 64 ∷ Script.at_most (a + h) 64 ∷ Script.at_most 2 k ∷ Script.at_most k largest ∷ Script.equal_or_apart d a h ∷ []) }
{
    1 <= h
        && h <= 16
        && d <= 64 - h
        && a <= 64 - h
        && 2 <= k
        && k <= largest
        && equal_or_apart(d, a, h)
}

// Whether a command's operands are in range; largest is the field's largest k.
#[tactic(auto, unfolding(model::specs::Script::all_pass))]
pub fn in_range(p: u32, largest: u32, c: Command) -> bool
    ensures { result ≡ Script.in_ranges p largest (meant c) }
{
    match c {
        Command::Load { d } => d < 64,
        Command::Const { d, v } => d < 64 && v < p,
        Command::Add { d, a, b } | Command::Sub { d, a, b } | Command::Mul { d, a, b } => d < 64
            && a < 64
            && b < 64,
        Command::Scale { d, a, v } => d < 64 && a < 64 && v < p,
        Command::Mod { d, a, k, m }
        | Command::Trunc { d, a, k, m }
        | Command::Blocks { d, a, k, m } => {
            d < 64 && a < 64 && 2 <= k && k <= largest && 1 <= m && m < k
        }
        Command::Ltz { d, a, k } => d < 64 && a < 64 && 2 <= k && k <= largest,
        Command::Over { d, a, k, v } => d < 64 && a < 64 && 2 <= k && k <= largest && v < p,
        Command::Reveal { a } => a < 64,
        Command::Bitlt { d, b, w, v } => bits_in(d, b, w, v),
        Command::Ltzs { d, a, h, k } => stretches_in(largest, d, a, h, k),
    }
}
