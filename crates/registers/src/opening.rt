// The commands that open shares and take no mask: MUL, BITLT and REVEAL.
// They are not inlined, so that the frame of their caller does not hold the tables of all of them.
ghost use Rattle.std.specs.Prelude.{◌≡◌, ◌+◌, ◌-◌, ◌*◌, ◌≤◌, ◌<◌, length, drop};
ghost use Rattle.algebra.specs.Lists.{Below};
ghost use Rattle.model.specs.Bytes as Bytes;
ghost use Rattle.model.specs.Steps as Steps;
ghost use Rattle.sharing.specs.Settings.{setting_of, Fitting};
ghost use Rattle.steps.specs.Places.{Room};
ghost use Rattle.steps.specs.Promises.{StepLeaves};
ghost use Rattle.registers.specs.Cells.{register_in, Stored, Revealed};

use crate::table::{Table, register};
use secret::Row;
use sharing::setting::Setting;
use steps::places::Places;
use steps::{comparison, opening, product};

// BITLT of v against w registers from b on.
fn comparison_from(
    setting: Setting,
    at: Places,
    s: &[u8],
    log: &mut [u32],
    cells: &[u32],
    b: usize,
    w: usize,
    v: u32,
) -> Row
    requires { Room s.now log.old setting at (w - 1) × (1 ≤ w) × (w ≤ 31) × (b + w ≤ 64) × (length cells.now ≡ 448) }
    ensures { StepLeaves s.now setting at (w - 1) (Steps.comparison (setting_of setting) v (Bytes.sevens w (drop (7 * b) cells.now))) result.shares log.old log.new }
{
    comparison::comparison(setting, at, s, log, v, w, &cells[7 * b..])
}

impl Table {
    // MUL d a b
    #[inline(never)]
    pub fn multiply(
        self,
        setting: Setting,
        at: Places,
        s: &[u8],
        log: &mut [u32],
        d: usize,
        a: usize,
        b: usize,
    ) -> Table
        requires { Room s.now log.old setting at 1 × (d < 64) × (a < 64) × (b < 64) }
        ensures { Stored d (λ z. StepLeaves s.now setting at 1 (Steps.product (setting_of setting) (register_in self.cells a) (register_in self.cells b)) z log.old log.new) self.cells result.cells × (result.spent ≡ self.spent) }
    {
        let left = register(&self.cells[..], a);
        let right = register(&self.cells[..], b);
        let row = product::product(setting, at, s, log, left, right);
        self.put(d, row)
    }

    // BITLT d b w v
    #[inline(never)]
    pub fn compare(
        self,
        setting: Setting,
        at: Places,
        s: &[u8],
        log: &mut [u32],
        d: usize,
        b: usize,
        w: usize,
        v: u32,
    ) -> Table
        requires { Room s.now log.old setting at (w - 1) × (d < 64) × (1 ≤ w) × (w ≤ 31) × (b + w ≤ 64) }
        ensures { Stored d (λ z. StepLeaves s.now setting at (w - 1) (Steps.comparison (setting_of setting) v (Bytes.sevens w (drop (7 * b) self.cells))) z log.old log.new) self.cells result.cells × (result.spent ≡ self.spent) }
    {
        let row = comparison_from(setting, at, s, log, &self.cells[..], b, w, v);
        self.put(d, row)
    }

    // REVEAL a: one opening, and its value goes to the revealed list's next place.
    #[inline(never)]
    pub fn reveal(
        self,
        setting: Setting,
        at: Places,
        log: &mut [u32],
        revealed: &mut [u32],
        a: usize,
    ) -> Table
        requires { Fitting setting × (at.log + setting.n ≤ length log.old) × (self.spent.counts.revealed < length revealed.old) × (a < 64) × Below setting.p (register_in self.cells a) }
        ensures { Revealed setting at (register_in self.cells a) self.spent.counts.revealed log.old revealed.old log.new revealed.new × (result ≡ self) }
    {
        let j = self.spent.counts.revealed;
        revealed[j] = opening::open_at(setting, at.log, log, register(&self.cells[..], a));
        self
    }
}
