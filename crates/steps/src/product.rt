// MUL.
ghost use Rattle.std.specs.Prelude.{◌+◌, ◌≤◌, length};
ghost use Rattle.model.specs.Steps as Steps;
ghost use Rattle.sharing.specs.Settings.{setting_of, Fitting};
ghost use Rattle.steps.specs.Places.{Room};
ghost use Rattle.steps.specs.Promises.{Opens, StepLeaves};

use crate::opening;
use crate::places::Places;
use local::product::beaver;
use secret::Row;
use sharing::rows;
use sharing::setting::Setting;

// Opens x − a at a place of the record.
pub fn open_difference(setting: Setting, at: usize, log: &mut [u32], x: Row, a: Row) -> u32
    requires { Fitting setting × (at + setting.n ≤ length log.old) }
    ensures { Opens setting at (Steps.minus (setting_of setting) x.shares a.shares) result log.old log.new }
{
    opening::open_at(setting, at, log, rows::sub_rows(setting, x, a))
}

// MUL: "takes the next triple, opens a1 = left − a, then b1 = right − b, leaves c + a1·b + b1·a + a1·b1".
pub fn product(
    setting: Setting,
    at: Places,
    s: &[u8],
    log: &mut [u32],
    left: Row,
    right: Row,
) -> Row
    requires { Room s.now log.old setting at 1 }
    ensures { StepLeaves s.now setting at 1 (Steps.product (setting_of setting) left.shares right.shares) result.shares log.old log.new }
{
    let n = setting.n;
    let i = at.triple;
    let a = rows::read_row(s, n, i);
    let b = rows::read_row(s, n, i + 4 * n);
    let c = rows::read_row(s, n, i + 8 * n);
    let a1 = open_difference(setting, at.log, log, left, a);
    let b1 = open_difference(setting, at.log + n, log, right, b);
    beaver(setting, a1, b1, a, b, c)
}
