// MOD, TRUNC, LTZ, OVER and BLOCKS: the remainder of a row made of the operand, and a row made of the remainder.
ghost use Rattle.std.specs.Prelude.{◌≡◌, ◌-◌, ◌^◌, ◌≤◌, ◌<◌};
ghost use Rattle.model.specs.Steps as Steps;
ghost use Rattle.sharing.specs.Settings.{setting_of, Fitting};
ghost use Rattle.cuts.specs.Cuts.{CutRoom, CutLeaves, width_of, low_of, before_row, after_row};

use field::arithmetic;
use secret::Row;
use sharing::rows;
use sharing::setting::Setting;
use steps::places::Places;
use steps::remainder;

// The commands that rest on MOD, with their numbers.
#[derive(Clone, Copy)]
pub enum Cut {
    Mod { k: u32, m: u32 },
    Trunc { k: u32, m: u32 },
    Ltz { k: u32 },
    Over { k: u32, v: u32 },
    Blocks { k: u32, m: u32 },
}

pub fn width(c: Cut) -> u32
    ensures { result ≡ width_of c }
{
    match c {
        Cut::Mod { k, .. }
        | Cut::Trunc { k, .. }
        | Cut::Ltz { k }
        | Cut::Over { k, .. }
        | Cut::Blocks { k, .. } => k,
    }
}

// "LTZ is minus TRUNC with m = k − 1."
pub fn low(c: Cut) -> u32
    requires { 1 ≤ width_of c }
    ensures { result ≡ low_of c }
{
    match c {
        Cut::Mod { m, .. } | Cut::Trunc { m, .. } | Cut::Blocks { m, .. } => m,
        Cut::Ltz { k } | Cut::Over { k, .. } => k - 1,
    }
}

// What BLOCKS takes the floor of: a + 2^m − 1.
pub fn sum_row(setting: Setting, m: u32, a: Row) -> Row
    requires { Fitting setting × (m < 30) × (2 ^ m < setting.p) }
    ensures { result.shares ≡ Steps.plus (setting_of setting) a.shares (Steps.constant (setting_of setting) (2 ^ m - 1)) }
{
    let power = arithmetic::power_of_two(setting.p, m);
    rows::add_public(setting, a, power - 1)
}

// The row whose remainder is taken. OVER: "LTZ of (v − a)"; BLOCKS, by request 2: "TRUNC of a + 2^m − 1 with the same k and m".
pub fn before(setting: Setting, c: Cut, a: Row) -> Row
    requires { Fitting setting × (low_of c < 30) × (2 ^ low_of c < setting.p) }
    ensures { result.shares ≡ before_row (setting_of setting) c a.shares }
{
    match c {
        Cut::Mod { .. } | Cut::Trunc { .. } | Cut::Ltz { .. } => a,
        Cut::Over { v, .. } => rows::sub_rows(setting, rows::constant_row(setting, v), a),
        Cut::Blocks { m, .. } => sum_row(setting, m, a),
    }
}

// "(a − MOD) times the inverse of 2^m."
pub fn quotient_row(setting: Setting, m: u32, a: Row, remainder: Row) -> Row
    requires { Fitting setting }
    ensures { result.shares ≡ Steps.quotient (setting_of setting) m a.shares remainder.shares }
{
    let inverse = arithmetic::inverse_power_of_two(setting.p, m);
    rows::scale_row(setting, inverse, rows::sub_rows(setting, a, remainder))
}

// Minus the quotient.
pub fn sign_row(setting: Setting, quotient: Row) -> Row
    requires { Fitting setting }
    ensures { result.shares ≡ Steps.minus (setting_of setting) (Steps.constant (setting_of setting) 0) quotient.shares }
{
    rows::sub_rows(setting, rows::constant_row(setting, 0), quotient)
}

// The row left, made of that row and its remainder.
pub fn after(setting: Setting, c: Cut, m: u32, x: Row, remainder: Row) -> Row
    requires { Fitting setting × (m ≡ low_of c) }
    ensures { result.shares ≡ after_row (setting_of setting) c x.shares remainder.shares }
{
    match c {
        Cut::Mod { .. } => remainder,
        Cut::Trunc { .. } | Cut::Blocks { .. } => quotient_row(setting, m, x, remainder),
        Cut::Ltz { .. } | Cut::Over { .. } => {
            sign_row(setting, quotient_row(setting, m, x, remainder))
        }
    }
}

pub fn cut_row(setting: Setting, at: Places, s: &[u8], log: &mut [u32], c: Cut, a: Row) -> Row
    requires { CutRoom s.now log.old setting at c }
    ensures { CutLeaves s.now setting at c a.shares result.shares log.old log.new }
{
    let k = width(c);
    let m = low(c);
    let x = before(setting, c, a);
    let rest = remainder::remainder(setting, at, s, log, k, m, x);
    after(setting, c, m, x, rest)
}
