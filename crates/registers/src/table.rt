// The state of a run, by value.
ghost use Rattle.std.specs.Prelude.{◌≡◌, ◌+◌, ◌*◌, ◌≤◌, ◌<◌, length, replicate};
ghost use Rattle.algebra.specs.Lists.{onto_at};
ghost use Rattle.model.specs.Checks as Checks;
ghost use Rattle.model.specs.Run as Run;
ghost use Rattle.costs.specs.Costing.{counts_of, cost_of, spent_of, Summing};
ghost use Rattle.registers.specs.Cells.{register_in};
ghost use Rattle.registers.specs.Places.{places_of, Reached};

use costs::cost::Cost;
use costs::counts::Counts;
use costs::spent;
use costs::spent::Spent;
use secret::Row;
use sharing::rows;
use sheet::frame::Frame;
use steps::places::Places;

// 64 registers of seven cells each, register r's from cell 7r on; and what was spent, with the marks of the registers that are set.
#[derive(Clone, Copy)]
pub struct Table {
    pub cells: [u32; 448],
    pub spent: Spent,
}

impl Table {
    // "A run starts with all registers unset, all counts 0": the cells of an unset register are 0.
    pub fn new() -> Table
        ensures { (result.cells ≡ replicate 448 0) × (spent_of result.spent ≡ Run.nothing_spent) }
    {
        Table {
            cells: [0u32; 448],
            spent: spent::nothing(),
        }
    }

    // The row goes to register d.
    pub fn put(mut self, d: usize, row: Row) -> Table
        requires { d < 64 }
        ensures { (result.cells ≡ onto_at (7 * d) row.shares self.cells) × (result.spent ≡ self.spent) }
    {
        let i = 7 * d;
        self.cells[i..i + 7].copy_from_slice(&row.shares);
        self
    }

    // The cost of a finished command paid.
    pub fn paid(mut self, need: Cost) -> Table
        requires { Summing self.spent.counts need.counts × (need.target.from + need.target.size ≤ 64) }
        ensures { (result.cells ≡ self.cells) × (spent_of result.spent ≡ Checks.pay (cost_of need) (spent_of self.spent)) }
    {
        self.spent = spent::pay(self.spent, need);
        self
    }
}

// The next places of mask, triple and record, where so much was spent.
pub fn places_of(f: Frame, spent: Counts) -> Places
    requires { Reached f (counts_of spent) }
    ensures { result ≡ places_of f (counts_of spent) }
{
    let n = f.n;
    Places {
        mask: f.mask + spent.masks * (f.l * (4 * n)),
        triple: f.triple + spent.triples * (12 * n),
        log: spent.openings * n,
    }
}

// Register a's row, of a table's cells: lent, so that no table is copied for it.
pub fn register(cells: &[u32], a: usize) -> Row
    requires { (length cells.now ≡ 448) × (a < 64) }
    ensures { result.shares ≡ register_in cells.now a }
{
    rows::cell_row(cells, a)
}
