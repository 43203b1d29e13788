// BITLT's row at a bit, by v's bit, which is public.
ghost use Rattle.std.specs.Prelude.{◌≡◌, cond};
ghost use Rattle.model.specs.Steps as Steps;
ghost use Rattle.sharing.specs.Settings.{setting_of, Fitting};

use secret::Row;
use sharing::rows;
use sharing::setting::Setting;

// "lt is bit 0 if v's bit 0 is 0, else the zero sharing."
pub fn first_row(setting: Setting, one: bool, bit: Row) -> Row
    requires { Fitting setting }
    ensures { result.shares ≡ cond one (Steps.constant (setting_of setting) 0) bit.shares }
{
    if one {
        rows::constant_row(setting, 0)
    } else {
        bit
    }
}

// "lt becomes bit i + lt − q where v's bit i is 0, else q."
pub fn next_row(setting: Setting, one: bool, bit: Row, lt: Row, q: Row) -> Row
    requires { Fitting setting }
    ensures { result.shares ≡ Steps.chosen (setting_of setting) one bit.shares lt.shares q.shares }
{
    if one {
        q
    } else {
        rows::sub_rows(setting, rows::add_rows(setting, bit, lt), q)
    }
}
