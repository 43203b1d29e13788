// 21 to 24: what the command at which a forecast stops reads or needs, and what is left.
ghost use Rattle.std.specs.Prelude.{◌≡◌, ◌+◌, ◌-◌, ◌≤◌};
ghost use Rattle.algebra.specs.Lists.{from};
ghost use Rattle.costs.specs.Costing.{cost_of};
ghost use Rattle.forecast.specs.Unset.{first_unset, InTable};

use crate::amounts::{All, Needed, amounts_of, parts_of};
use crate::names;
use costs::cost;
use costs::cost::Cost;
use costs::counts::Counts;
use costs::spent::Spent;
use forecasting::lines;
use forecasting::lines::Foreseen;
use refusals::Refusal;
use report::text::{line, put};
use script::decode;
use sheet::frame::Frame;

// Counts of which only input rows, masks and triples are spoken of.
fn counts(inputs: usize, masks: usize, triples: usize) -> Counts {
    Counts {
        inputs,
        masks,
        triples,
        openings: 0,
        revealed: 0,
    }
}

// What there is by the header.
pub fn there(f: Frame) -> Counts {
    counts(f.inputs, f.masks, f.triples)
}

#[tactic(auto, using(script::proofs::Lines::in_range_lem))]
pub fn missing(f: Frame, script: &[u8], found: Foreseen<Refusal>)
    requires { (f.l ≤ 31) × (f.largest ≤ 30) }
{
    let at = found.place;
    let Ok(Some(line)) = decode::decode(f.p, f.largest, script, at) else {
        return;
    };
    let need = cost::cost_of(f, line.command);
    let spent = found.spent;
    put(names::command(script, at));
    if found.ended == Err(Refusal::Unset) {
        unset(spent, need);
    } else {
        too_few(there(f), spent.counts, need.counts);
        whole_script(f, script);
    }
}

// The first of registers b to b + w − 1 that is not set, or 64.
#[tactic(auto, using(crate::proofs::Registers::unset_start, crate::proofs::Registers::unset_more, crate::proofs::Registers::unset_here, crate::proofs::Registers::unset_end))]
fn first_unset(marks: [bool; 64], b: usize, w: usize) -> usize
    requires { b + w ≤ 64 }
    ensures { result ≡ first_unset marks (from b w) }
{
    for i in 0..w {
        if !marks[b + i] {
            return b + i;
        }
    }
    64
}

// The first register that the command reads and that is not set, or 64.
#[tactic(auto, using(crate::proofs::Registers::in_first, crate::proofs::Registers::in_second))]
fn unset_register(marks: [bool; 64], need: Cost) -> usize
    requires { InTable need }
    ensures { result ≡ first_unset marks (cost_of need).reads }
{
    let first = first_unset(marks, need.first.from, need.first.size);
    if first < 64 {
        return first;
    }
    first_unset(marks, need.second.from, need.second.size)
}

fn unset(spent: Spent, need: Cost)
    requires { InTable need }
{
    let register = unset_register(spent.marks, need);
    line(format_args!(" reads register {register}, which no command before it sets.",));
}

fn too_few(all: Counts, spent: Counts, need: Counts) {
    let rest = counts(
        all.inputs.saturating_sub(spent.inputs),
        all.masks.saturating_sub(spent.masks),
        all.triples.saturating_sub(spent.triples),
    );
    let needed = Needed(need, amounts_of(need));
    let left = Needed(need, parts_of(rest, all));
    line(format_args!(" needs {needed}: {left} are left."));
}

// What the whole script needs, where with a supply that no script spends it comes to END.
fn whole_script(f: Frame, script: &[u8])
    requires { (f.l ≤ 31) × (f.largest ≤ 30) }
{
    let plenty = Counts {
        inputs: usize::MAX,
        masks: usize::MAX,
        triples: usize::MAX,
        openings: usize::MAX,
        revealed: usize::MAX,
    };
    let found = lines::foresee_script(f, script, plenty);
    if found.ended.is_ok() {
        let spent = found.spent.counts;
        let more = if over_limits(spent) {
            ", more than a header may count"
        } else {
            ""
        };
        let all = All(amounts_of(spent));
        line(format_args!("The whole script needs {all}{more}."));
    }
}

// "input rows (at most 64), masks (at most 16), triples (at most 512)"
fn over_limits(x: Counts) -> bool {
    x.inputs > 64 || x.masks > 16 || x.triples > 512
}
