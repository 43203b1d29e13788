// What is counted of a run, as it is spent and as it is there.
ghost use Rattle.std.specs.Prelude.{◌≡◌, ◌≤◌};
ghost use Rattle.model.specs.Counts as Paper;
ghost use Rattle.model.specs.Costs as Costs;
ghost use Rattle.costs.specs.Costing.{counts_of, left_of, Within, Summing};

#[derive(Clone, Copy)]
pub struct Counts {
    pub inputs: usize,
    pub masks: usize,
    pub triples: usize,
    pub openings: usize,
    pub revealed: usize,
}

// "all counts 0"
pub fn none() -> Counts
    ensures { counts_of result ≡ Paper.no_counts }
{
    Counts {
        inputs: 0,
        masks: 0,
        triples: 0,
        openings: 0,
        revealed: 0,
    }
}

// LOAD's, and REVEAL's.
pub fn one_input() -> Counts
    ensures { counts_of result ≡ Costs.of_input }
{
    Counts {
        inputs: 1,
        ..none()
    }
}

pub fn one_revealed() -> Counts
    ensures { counts_of result ≡ Costs.of_reveal }
{
    Counts {
        openings: 1,
        revealed: 1,
        ..none()
    }
}

// So many triples, two openings each.
pub fn of_triples(n: usize) -> Counts
    requires { n ≤ 1000 }
    ensures { counts_of result ≡ Costs.of_triples n }
{
    Counts {
        triples: n,
        openings: 2 * n,
        ..none()
    }
}

// A mask and MOD's triples for m: "one mask, ℓ + 2m − 2 triples, and 1 + 2(ℓ + 2m − 2) openings".
pub fn of_mask(l: usize, m: u32) -> Counts
    requires { (l ≤ 31) × (1 ≤ m) × (m ≤ 30) }
    ensures { counts_of result ≡ Costs.of_mask (Costs.mod_triples l m) }
{
    let triples = l + 2 * m as usize - 2;
    Counts {
        masks: 1,
        triples,
        openings: 1 + 2 * triples,
        ..none()
    }
}

// LTZS: h masks, with the triples of MOD of m for each.
pub fn of_masks(l: usize, h: usize, m: u32) -> Counts
    requires { (l ≤ 31) × (h ≤ 16) × (1 ≤ m) × (m ≤ 30) }
    ensures { counts_of result ≡ Costs.of_masks h (Costs.mod_triples l m) }
{
    let one = of_mask(l, m);
    Counts {
        masks: h,
        triples: h * one.triples,
        openings: h * one.openings,
        ..none()
    }
}

// What was spent before, and then.
pub fn added(x: Counts, y: Counts) -> Counts
    requires { Summing x y }
    ensures { counts_of result ≡ Paper.added (counts_of x) (counts_of y) }
{
    Counts {
        inputs: x.inputs + y.inputs,
        masks: x.masks + y.masks,
        triples: x.triples + y.triples,
        openings: x.openings + y.openings,
        revealed: x.revealed + y.revealed,
    }
}

// What is left of a supply.
pub fn left(supply: Counts, spent: Counts) -> Counts
    requires { Within (counts_of spent) (counts_of supply) }
    ensures { counts_of result ≡ left_of (counts_of supply) (counts_of spent) }
{
    Counts {
        inputs: supply.inputs - spent.inputs,
        masks: supply.masks - spent.masks,
        triples: supply.triples - spent.triples,
        openings: supply.openings - spent.openings,
        revealed: supply.revealed - spent.revealed,
    }
}
