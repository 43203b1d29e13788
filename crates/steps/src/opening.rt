// Opening.
ghost use Rattle.std.specs.Prelude.{◌+◌, ◌≤◌, length};
ghost use Rattle.algebra.specs.Lists.{Below};
ghost use Rattle.sharing.specs.Settings.{Fitting};
ghost use Rattle.steps.specs.Promises.{Opens};

use secret::Row;
use sharing::opening;
use sharing::setting::Setting;

// "Opening: the n shares go to the record, party 1 first, and the value at 0 becomes public." By request 5 the value is worked from the lowest t + 1
// present parties, and p stands for an absent share. The part of the record starts at its next free place.
pub fn open_row(setting: Setting, part: &mut [u32], row: Row) -> u32
    requires { Fitting setting × (setting.n ≤ length part.old) × Below setting.p row.shares }
    ensures { Opens setting 0 row.shares result part.old part.new }
{
    opening::put_opened(setting, part, 0, row);
    opening::opened_value(setting, row)
}

// The same in the whole record, whose next free place is given.
pub fn open_at(setting: Setting, at: usize, log: &mut [u32], row: Row) -> u32
    requires { Fitting setting × (at + setting.n ≤ length log.old) × Below setting.p row.shares }
    ensures { Opens setting at row.shares result log.old log.new }
{
    open_row(setting, &mut log[at..], row)
}
