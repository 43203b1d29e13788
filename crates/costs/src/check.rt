// "Refused because of the state": the checks 21 to 26.
ghost use Rattle.std.specs.Prelude.{◌≡◌, ◌+◌, ◌≤◌};
ghost use Rattle.algebra.specs.Lists.{from};
ghost use Rattle.refusals.specs.Numbers.{told};
ghost use Rattle.model.specs.Checks as Paper;
ghost use Rattle.costs.specs.Costing.{counts_of, cost_of, spent_of, Supplied, Checkable, missing};

use crate::cost::Cost;
use crate::counts;
use crate::counts::Counts;
use crate::spent::Spent;
use refusals::Refusal;

// Whether registers b to b + w − 1 are set.
fn all_set(marks: [bool; 64], b: usize, w: usize) -> bool
    requires { b + w ≤ 64 }
    ensures { result ≡ Paper.all_set marks (from b w) }
{
    marks[b..b + w].iter().all(|&set| set)
}

// 21 where not all registers that are read are set, else 22 to 26 by what is left.
#[tactic(auto, unfolding(crate::specs::Costing::missing, model::specs::Refusing::first_failed))]
fn first_missing(set: bool, left: Counts, need: Counts) -> Result<(), Refusal>
    ensures { told result ≡ missing set (counts_of left) (counts_of need) }
{
    if !set {
        return Err(Refusal::Unset);
    }
    if left.inputs < need.inputs {
        return Err(Refusal::NoInput);
    }
    if left.masks < need.masks {
        return Err(Refusal::NoMask);
    }
    if left.triples < need.triples {
        return Err(Refusal::TooFewTriples);
    }
    if left.openings < need.openings {
        return Err(Refusal::RecordFull);
    }
    if left.revealed < need.revealed {
        return Err(Refusal::RevealedFull);
    }
    Ok(())
}

// "Tried before a command changes anything, in this order". What was spent is within the supply.
pub fn check(spent: Spent, supply: Counts, need: Cost) -> Result<(), Refusal>
    requires { Checkable spent supply need }
    ensures { (u : Paper.Supply) → Supplied u supply → told result ≡ Paper.check u (cost_of need) (spent_of spent) }
{
    let first = all_set(spent.marks, need.first.from, need.first.size);
    let second = all_set(spent.marks, need.second.from, need.second.size);
    let set = first && second;
    let left = counts::left(supply, spent.counts);
    first_missing(set, left, need.counts)
}
