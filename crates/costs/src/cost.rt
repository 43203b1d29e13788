// What each command reads, writes and spends.
ghost use Rattle.std.specs.Prelude.{[], ◌∷◌, ◌+◌, ◌-◌, ◌≤◌, ◌<◌, T};
ghost use Rattle.algebra.specs.Lists.{from};
ghost use Rattle.model.specs.Script as Paper;
ghost use Rattle.model.specs.Costs as PaperCosts;
ghost use Rattle.script.specs.Meaning.{meant};
ghost use Rattle.sheet.specs.Framed.{setting_in};
ghost use Rattle.costs.specs.Costing.{counts_of, Costs};

use crate::counts;
use crate::counts::Counts;
use script::command::Command;
use sheet::frame::Frame;

// So many registers, from one on.
#[derive(Clone, Copy)]
pub struct Span {
    pub from: usize,
    pub size: usize,
}

// The registers read, in two spans, and those written; and what is spent.
#[derive(Clone, Copy)]
pub struct Cost {
    pub first: Span,
    pub second: Span,
    pub target: Span,
    pub counts: Counts,
}

// A command that writes d and reads no register; one; two.
#[tactic(auto, unfolding(algebra::specs::Lists::from))]
fn on_none(d: usize, counts: Counts) -> Cost
    requires { d < 64 }
    ensures { Costs result (record { reads = []; writes = d ∷ []; counts = counts_of counts }) }
{
    Cost {
        first: Span { from: 0, size: 0 },
        second: Span { from: 0, size: 0 },
        target: Span { from: d, size: 1 },
        counts,
    }
}

#[tactic(auto, unfolding(algebra::specs::Lists::from))]
fn on_one(d: usize, a: usize, counts: Counts) -> Cost
    requires { (d < 64) × (a < 64) }
    ensures { Costs result (record { reads = a ∷ []; writes = d ∷ []; counts = counts_of counts }) }
{
    Cost {
        first: Span { from: a, size: 1 },
        second: Span { from: 0, size: 0 },
        target: Span { from: d, size: 1 },
        counts,
    }
}

#[tactic(auto, unfolding(algebra::specs::Lists::from))]
fn on_two(d: usize, a: usize, b: usize, counts: Counts) -> Cost
    requires { (d < 64) × (a < 64) × (b < 64) }
    ensures { Costs result (record { reads = a ∷ b ∷ []; writes = d ∷ []; counts = counts_of counts }) }
{
    Cost {
        first: Span { from: a, size: 1 },
        second: Span { from: b, size: 1 },
        target: Span { from: d, size: 1 },
        counts,
    }
}

// REVEAL, which writes none.
#[tactic(auto, unfolding(algebra::specs::Lists::from))]
fn revealing(a: usize) -> Cost
    requires { a < 64 }
    ensures { Costs result (record { reads = a ∷ []; writes = []; counts = PaperCosts.of_reveal }) }
{
    Cost {
        first: Span { from: a, size: 1 },
        second: Span { from: 0, size: 0 },
        target: Span { from: 0, size: 0 },
        counts: counts::one_revealed(),
    }
}

// BITLT, which reads w registers from b on.
#[tactic(auto, unfolding(algebra::specs::Lists::from))]
fn comparing(d: usize, b: usize, w: usize) -> Cost
    requires { (d < 64) × (1 ≤ w) × (b + w ≤ 64) }
    ensures { Costs result (record { reads = from b w; writes = d ∷ []; counts = PaperCosts.of_triples (w - 1) }) }
{
    Cost {
        first: Span { from: b, size: w },
        second: Span { from: 0, size: 0 },
        target: Span { from: d, size: 1 },
        counts: counts::of_triples(w - 1),
    }
}

// LTZS, which reads h registers from a on, and writes h from d on.
#[tactic(auto, unfolding(algebra::specs::Lists::from))]
fn on_stretches(d: usize, a: usize, h: usize, counts: Counts) -> Cost
    requires { (d + h ≤ 64) × (a + h ≤ 64) }
    ensures { Costs result (record { reads = from a h; writes = from d h; counts = counts_of counts }) }
{
    Cost {
        first: Span { from: a, size: h },
        second: Span { from: 0, size: 0 },
        target: Span { from: d, size: h },
        counts,
    }
}

// What a command with operands in range costs.
#[tactic(auto, using(crate::proofs::Ranging::ranged), unfolding(model::specs::Costs::cost_by))]
pub fn cost_of(f: Frame, c: Command) -> Cost
    requires { (f.l ≤ 31) × (f.largest ≤ 30) × T (Paper.in_ranges f.p f.largest (meant c)) }
    ensures { Costs result (PaperCosts.cost (setting_in f) (meant c)) }
{
    match c {
        Command::Load { d } => on_none(d, counts::one_input()),
        Command::Const { d, .. } => on_none(d, counts::none()),
        Command::Add { d, a, b } | Command::Sub { d, a, b } => on_two(d, a, b, counts::none()),
        Command::Scale { d, a, .. } => on_one(d, a, counts::none()),
        Command::Mul { d, a, b } => on_two(d, a, b, counts::of_triples(1)),
        Command::Mod { d, a, m, .. }
        | Command::Trunc { d, a, m, .. }
        | Command::Blocks { d, a, m, .. } => on_one(d, a, counts::of_mask(f.l, m)),
        Command::Ltz { d, a, k } | Command::Over { d, a, k, .. } => on_one(
            d,
            a,
            counts::of_mask(f.l, k - 1),
        ),
        Command::Reveal { a } => revealing(a),
        Command::Bitlt { d, b, w, .. } => comparing(d, b, w),
        Command::Ltzs { d, a, h, k } => on_stretches(d, a, h, counts::of_masks(f.l, h, k - 1)),
    }
}
