// The commands that open shares, but for LTZS: MUL, BITLT, the cuts, and REVEAL.
// They are not inlined, so that the frame of the caller does not hold the tables of all commands.
ghost use Rattle.std.specs.Prelude.{◌≡◌, ◌+◌, ◌-◌, ◌*◌, ◌≤◌, ◌<◌, length, drop};
ghost use Rattle.model.specs.Bytes as Bytes;
ghost use Rattle.model.specs.Costs.{mod_triples};
ghost use Rattle.model.specs.Trees.{multiply};
ghost use Rattle.cuts.specs.Cuts.{width_of, low_of};
ghost use Rattle.registers.specs.Cells.{register_in};
ghost use Rattle.column_steps.specs.Reads.{Working, Standing, past, past_mask, compared};
ghost use Rattle.column_steps.specs.Remainders.{KM};
ghost use Rattle.column_steps.specs.Cutting.{cut_tree};
ghost use Rattle.column_commands.specs.Does.{Storing, Reveals};

use crate::own;
use column_steps::column::{Ahead, Column};
use column_steps::{column, comparison, cut, product};
use cuts::cut::Cut;
use refusals::Refusal;
use registers::table::{Table, register};

// MUL d a b
#[inline(never)]
pub fn multiply(
    table: Table,
    c: Column,
    at: Ahead,
    part: &[u8],
    log: &[u32],
    d: usize,
    a: usize,
    b: usize,
) -> Result<Table, Refusal>
    requires { Working c × Standing c part.now log.now at 0 1 × (d < 64) × (a < 64) × (b < 64) }
    ensures { Storing c part.now log.now at (past at 1) 0 1 (multiply (register_in table.cells a) (register_in table.cells b)) table d result }
{
    let left = register(&table.cells[..], a);
    let right = register(&table.cells[..], b);
    let made = product::product(c, at, part, log, left, right);
    own::stored(table, d, made)
}

// BITLT d b w v: of v against w registers from b on.
#[inline(never)]
pub fn compare(
    table: Table,
    c: Column,
    at: Ahead,
    part: &[u8],
    log: &[u32],
    d: usize,
    b: usize,
    w: usize,
    v: u32,
) -> Result<Table, Refusal>
    requires { Working c × Standing c part.now log.now at 0 (w - 1) × (d < 64) × (1 ≤ w) × (w ≤ 31) × (b + w ≤ 64) }
    ensures { Storing c part.now log.now at (past at (w - 1)) 0 (w - 1) (compared c v (Bytes.sevens w (drop (7 * b) table.cells))) table d result }
{
    let bits = &table.cells[7 * b..];
    let made = comparison::comparison(c, at, part, log, v, w, bits);
    own::stored(table, d, made)
}

// A cut of register a goes to register d: MOD, TRUNC, LTZ, OVER or BLOCKS.
#[inline(never)]
pub fn cut(
    table: Table,
    c: Column,
    at: Ahead,
    part: &[u8],
    log: &[u32],
    d: usize,
    a: usize,
    y: Cut,
) -> Result<Table, Refusal>
    requires { Working c × Standing c part.now log.now at 1 (mod_triples c.setting.l (low_of y)) × KM c.setting (width_of y) (low_of y) × (d < 64) × (a < 64) }
    ensures { Storing c part.now log.now at (past (past_mask c.setting.l at) (mod_triples c.setting.l (low_of y))) 1 (mod_triples c.setting.l (low_of y)) (cut_tree c y (register_in table.cells a)) table d result }
{
    let row = register(&table.cells[..], a);
    let made = cut::cut_row(c, at, part, log, y, row);
    own::stored(table, d, made)
}

// REVEAL a: one opening. Its value goes nowhere: a replay has no revealed list.
#[inline(never)]
pub fn revealed(table: Table, c: Column, at: Ahead, log: &[u32], a: usize) -> Result<Table, Refusal>
    requires { Working c × (c.reader.n * at.opening ≤ length log.now) × (a < 64) }
    ensures { Reveals c log.now at.opening (register_in table.cells a) table result }
{
    let row = register(&table.cells[..], a);
    match column::open_row(c, log, at.opening, row) {
        Ok(_) => Ok(table),
        Err(refusal) => Err(refusal),
    }
}
