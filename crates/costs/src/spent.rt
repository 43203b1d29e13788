// What was spent and which registers are set; and what a finished command adds to it.
ghost use Rattle.std.specs.Prelude.{◌≡◌, ◌+◌, ◌≤◌, ◌<◌};
ghost use Rattle.algebra.specs.Lists.{from};
ghost use Rattle.model.specs.Checks as Paper;
ghost use Rattle.model.specs.Run as Run;
ghost use Rattle.costs.specs.Costing.{cost_of, spent_of, Summing, Supplied, supply_in};

use crate::cost::Cost;
use crate::counts;
use crate::counts::Counts;
use sheet::frame::Frame;

#[derive(Clone, Copy)]
pub struct Spent {
    pub counts: Counts,
    pub marks: [bool; 64],
}

// "A run starts with all registers unset, all counts 0"
#[tactic(auto, unfolding(model::specs::Run::nothing_spent))]
pub fn nothing() -> Spent
    ensures { spent_of result ≡ Run.nothing_spent }
{
    Spent {
        counts: counts::none(),
        marks: [false; 64],
    }
}

// The marks with registers d to d + w − 1 set.
fn mark(mut marks: [bool; 64], d: usize, w: usize) -> [bool; 64]
    requires { d + w ≤ 64 }
    ensures { result ≡ Paper.marked marks (from d w) }
{
    marks[d..d + w].fill(true);
    marks
}

// A finished command's cost is paid: its counts, and the registers that it wrote are set.
#[tactic(auto, unfolding(model::specs::Checks::pay))]
pub fn pay(spent: Spent, need: Cost) -> Spent
    requires { Summing spent.counts need.counts × (need.target.from + need.target.size ≤ 64) }
    ensures { spent_of result ≡ Paper.pay (cost_of need) (spent_of spent) }
{
    Spent {
        counts: counts::added(spent.counts, need.counts),
        marks: mark(spent.marks, need.target.from, need.target.size),
    }
}

// What there is, by the header and by the buffers: the record has place for log / n openings of n shares.
pub fn supply(f: Frame, log: usize, shown: usize) -> Counts
    requires { 0 < f.n }
    ensures { Supplied (supply_in f log shown) result }
{
    Counts {
        inputs: f.inputs,
        masks: f.masks,
        triples: f.triples,
        openings: log / f.n,
        revealed: shown,
    }
}
