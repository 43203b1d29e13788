// The commands that rest on MOD: MOD, TRUNC, LTZ, OVER, BLOCKS and LTZS.
// Those of a table are not inlined, so that the frame of their caller does not hold the tables of all of them.
ghost use Rattle.std.specs.Prelude.{◌≡◌, ◌<◌, length};
ghost use Rattle.model.specs.Script.{LTZ, LTZS};
ghost use Rattle.costs.specs.Costing.{counts_of};
ghost use Rattle.cuts.specs.declared.cut.Cut.TheVariants.{Ltz};
ghost use Rattle.cuts.specs.Cuts.{CutRoom, CutLeaves};
ghost use Rattle.registers.specs.Cells.{register_in, Stored};
ghost use Rattle.registers.specs.Holding.{CutReady, SignsReady, OnCells};

use crate::table::{Table, places_of, register};
use costs::counts;
use costs::counts::Counts;
use cuts::cut;
use cuts::cut::Cut;
use secret::Row;
use sharing::rows;
use sharing::setting::Setting;
use sheet::frame::Frame;
use steps::places::Places;

// The row that a cut of register a leaves, of a table's cells, which are lent.
fn cut_from(
    setting: Setting,
    at: Places,
    s: &[u8],
    log: &mut [u32],
    cells: &[u32],
    a: usize,
    c: Cut,
) -> Row
    requires { CutRoom s.now log.old setting at c × (length cells.now ≡ 448) × (a < 64) }
    ensures { CutLeaves s.now setting at c (register_in cells.now a) result.shares log.old log.new }
{
    cut::cut_row(setting, at, s, log, c, register(cells, a))
}

// LTZ d a k on a table's cells, where so much was spent before it.
fn sign_in(
    f: Frame,
    spent: Counts,
    s: &[u8],
    log: &mut [u32],
    cells: &mut [u32],
    d: usize,
    a: usize,
    k: u32,
)
    requires { CutReady s.now f (counts_of spent) cells.old log.old d a (Ltz k) }
    ensures { OnCells s.now f (counts_of spent) (LTZ d a k) cells.old log.old cells.new log.new }
{
    let setting = f.setting();
    let at = places_of(f, spent);
    let row = cut_from(setting, at, s, log, &cells[..], a, Cut::Ltz { k });
    rows::put_shares(cells, 7 * d, row, 7);
}

// LTZS d a h k: LTZ of h registers in rising order, each with the next mask and triples after the one before it.
fn signs_in(
    f: Frame,
    mut spent: Counts,
    s: &[u8],
    log: &mut [u32],
    cells: &mut [u32],
    d: usize,
    a: usize,
    h: usize,
    k: u32,
)
    requires { SignsReady s.now f (counts_of spent) cells.old log.old d a h k }
    ensures { OnCells s.now f (counts_of spent) (LTZS d a h k) cells.old log.old cells.new log.new }
{
    let one = counts::of_mask(f.l, k - 1);
    for i in 0..h {
        sign_in(f, spent, s, log, cells, d + i, a + i, k);
        spent = counts::added(spent, one);
    }
}

impl Table {
    // A cut of register a goes to register d.
    #[inline(never)]
    pub fn cut(
        self,
        setting: Setting,
        at: Places,
        s: &[u8],
        log: &mut [u32],
        d: usize,
        a: usize,
        c: Cut,
    ) -> Table
        requires { CutRoom s.now log.old setting at c × (d < 64) × (a < 64) }
        ensures { Stored d (λ z. CutLeaves s.now setting at c (register_in self.cells a) z log.old log.new) self.cells result.cells × (result.spent ≡ self.spent) }
    {
        let row = cut_from(setting, at, s, log, &self.cells[..], a, c);
        self.put(d, row)
    }

    // LTZS d a h k
    #[inline(never)]
    pub fn signs(
        mut self,
        f: Frame,
        s: &[u8],
        log: &mut [u32],
        d: usize,
        a: usize,
        h: usize,
        k: u32,
    ) -> Table
        requires { SignsReady s.now f (counts_of self.spent.counts) self.cells log.old d a h k }
        ensures { (result.spent ≡ self.spent) × OnCells s.now f (counts_of self.spent.counts) (LTZS d a h k) self.cells log.old result.cells log.new }
    {
        let spent = self.spent.counts;
        signs_in(f, spent, s, log, &mut self.cells[..], d, a, h, k);
        self
    }
}
