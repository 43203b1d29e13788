// LTZS.
// It is not inlined, so that the frame of its caller does not hold its tables.
ghost use Rattle.std.specs.Prelude.{◌≡◌, ◌+◌, ◌-◌, ◌*◌, ◌^◌, ◌≤◌, ◌<◌, length};
ghost use Rattle.model.specs.Costs.{mod_triples};
ghost use Rattle.cuts.specs.declared.cut.Cut.TheVariants.{Ltz};
ghost use Rattle.registers.specs.Cells.{register_in};
ghost use Rattle.column_steps.specs.Reads.{Working, Standing, Comes};
ghost use Rattle.column_steps.specs.Remainders.{KM};
ghost use Rattle.column_steps.specs.Cutting.{cut_tree};
ghost use Rattle.column_commands.specs.Signing.{past_signs, SignsCome};

use crate::own;
use column_steps::column::{Ahead, Column};
use column_steps::cut;
use cuts::cut::Cut;
use refusals::Refusal;
use registers::table::{Table, register};
use secret::Row;

// The sign of register a, of a table's cells, which are lent.
fn sign_of(
    c: Column,
    at: Ahead,
    part: &[u8],
    log: &[u32],
    cells: &[u32],
    a: usize,
    k: u32,
) -> Result<Row, Refusal>
    requires { Working c × Standing c part.now log.now at 1 (mod_triples c.setting.l (k - 1)) × KM c.setting k (k - 1) × (length cells.now ≡ 448) × (a < 64) }
    ensures { Comes c part.now log.now at (past_signs c k at 1) 1 (mod_triples c.setting.l (k - 1)) (cut_tree c (Ltz k) (register_in cells.now a)) result }
{
    cut::cut_row(c, at, part, log, Cut::Ltz { k }, register(cells, a))
}

// Past one sign: a mask, and ℓ + 2(k − 1) − 2 triples.
fn past_sign(c: Column, at: Ahead, k: u32) -> Ahead
    requires { KM c.setting k (k - 1) × (c.setting.l ≤ 31) × ((past_signs c k at 1).mask < 2 ^ 64) × ((past_signs c k at 1).triple < 2 ^ 64) × ((past_signs c k at 1).opening < 2 ^ 64) }
    ensures { result ≡ past_signs c k at 1 }
{
    let l = c.setting.l;
    at.past_mask(l).past(l + 2 * (k as usize - 1) - 2)
}

// LTZS d a h k: LTZ of h registers in rising order, each read as it stood before the command. A refusal leaves none of them.
#[inline(never)]
pub fn signs(
    table: Table,
    c: Column,
    at: Ahead,
    part: &[u8],
    log: &[u32],
    d: usize,
    a: usize,
    h: usize,
    k: u32,
) -> Result<Table, Refusal>
    requires { Working c × Standing c part.now log.now at h (h * mod_triples c.setting.l (k - 1)) × KM c.setting k (k - 1) × (d + h ≤ 64) × (a + h ≤ 64) }
    ensures { SignsCome c part.now log.now at d a h k table result }
{
    let mut after = table;
    let mut next = at;
    for i in 0..h {
        let made = sign_of(c, next, part, log, &table.cells[..], a + i, k);
        after = own::stored(after, d + i, made)?;
        next = past_sign(c, next, k);
    }
    Ok(after)
}
