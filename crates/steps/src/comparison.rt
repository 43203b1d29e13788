// BITLT.
ghost use Rattle.std.specs.Prelude.{◌-◌};
ghost use Rattle.model.specs.Bytes as Bytes;
ghost use Rattle.model.specs.Steps as Steps;
ghost use Rattle.sharing.specs.Settings.{setting_of};
ghost use Rattle.steps.specs.Places.{Bits, Room};
ghost use Rattle.steps.specs.Promises.{StepLeaves};

use crate::places::Places;
use crate::product;
use local::comparison::{first_row, next_row};
use secret::Row;
use sharing::rows;
use sharing::setting::Setting;

// BITLT of v against w bits, row k of the cells being bit k.
pub fn comparison(
    setting: Setting,
    at: Places,
    s: &[u8],
    log: &mut [u32],
    v: u32,
    w: usize,
    bits: &[u32],
) -> Row
    requires { Bits w bits.now × Room s.now log.old setting at (w - 1) }
    ensures { StepLeaves s.now setting at (w - 1) (Steps.comparison (setting_of setting) v (Bytes.sevens w bits.now)) result.shares log.old log.new }
{
    let mut lt = first_row(setting, v % 2 == 1, rows::cell_row(bits, 0));
    let mut rest = v / 2;
    let mut next = at;
    for k in 1..w {
        let bit = rows::cell_row(bits, k);
        let q = product::product(setting, next, s, log, bit, lt);
        lt = next_row(setting, rest % 2 == 1, bit, lt, q);
        rest /= 2;
        next = next.past(setting, 1);
    }
    lt
}
