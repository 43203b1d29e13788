// The commands that open nothing: LOAD, CONST, ADD, SUB and SCALE.
// They are not inlined, so that the frame of their caller does not hold the tables of all of them.
ghost use Rattle.std.specs.Prelude.{◌≡◌, ◌+◌, ◌*◌, ◌≤◌, ◌<◌, length};
ghost use Rattle.model.specs.Bytes as Bytes;
ghost use Rattle.model.specs.Steps as Steps;
ghost use Rattle.sharing.specs.Settings.{setting_of, Fitting};
ghost use Rattle.costs.specs.Costing.{counts_of};
ghost use Rattle.registers.specs.Cells.{register_in, Stored};
ghost use Rattle.registers.specs.Places.{input_place};

use crate::table::{Table, register};
use sharing::rows;
use sharing::setting::Setting;
use sheet::frame::Frame;

impl Table {
    // LOAD d: the next input row
    #[inline(never)]
    pub fn load(self, f: Frame, s: &[u8], d: usize) -> Table
        requires { (f.n ≤ 7) × (input_place f (counts_of self.spent.counts) + 4 * f.n ≤ length s.now) × (d < 64) }
        ensures { Stored d (λ z. z ≡ Bytes.row_at s.now f.n (input_place f (counts_of self.spent.counts))) self.cells result.cells × (result.spent ≡ self.spent) }
    {
        let i = f.input + self.spent.counts.inputs * (4 * f.n);
        self.put(d, rows::read_row(s, f.n, i))
    }

    // CONST d v
    #[inline(never)]
    pub fn fill(self, setting: Setting, d: usize, v: u32) -> Table
        requires { Fitting setting × (d < 64) }
        ensures { Stored d (λ z. z ≡ Steps.constant (setting_of setting) v) self.cells result.cells × (result.spent ≡ self.spent) }
    {
        self.put(d, rows::constant_row(setting, v))
    }

    // ADD d a b
    #[inline(never)]
    pub fn add(self, setting: Setting, d: usize, a: usize, b: usize) -> Table
        requires { Fitting setting × (d < 64) × (a < 64) × (b < 64) }
        ensures { Stored d (λ z. z ≡ Steps.plus (setting_of setting) (register_in self.cells a) (register_in self.cells b)) self.cells result.cells × (result.spent ≡ self.spent) }
    {
        let left = register(&self.cells[..], a);
        let right = register(&self.cells[..], b);
        let row = rows::add_rows(setting, left, right);
        self.put(d, row)
    }

    // SUB d a b
    #[inline(never)]
    pub fn sub(self, setting: Setting, d: usize, a: usize, b: usize) -> Table
        requires { Fitting setting × (d < 64) × (a < 64) × (b < 64) }
        ensures { Stored d (λ z. z ≡ Steps.minus (setting_of setting) (register_in self.cells a) (register_in self.cells b)) self.cells result.cells × (result.spent ≡ self.spent) }
    {
        let left = register(&self.cells[..], a);
        let right = register(&self.cells[..], b);
        let row = rows::sub_rows(setting, left, right);
        self.put(d, row)
    }

    // SCALE d a v
    #[inline(never)]
    pub fn scale(self, setting: Setting, d: usize, a: usize, v: u32) -> Table
        requires { Fitting setting × (d < 64) × (a < 64) }
        ensures { Stored d (λ z. z ≡ Steps.times (setting_of setting) v (register_in self.cells a)) self.cells result.cells × (result.spent ≡ self.spent) }
    {
        let row = rows::scale_row(setting, v, register(&self.cells[..], a));
        self.put(d, row)
    }
}
