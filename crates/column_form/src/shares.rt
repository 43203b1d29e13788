// Header and script copied as they are, and shares from one grid to another. No share is looked at: each is four bytes.
ghost use Rattle.std.specs.Prelude.{◌≡◌, ◌+◌, ◌*◌, ◌≤◌, length, take, drop};
ghost use Rattle.algebra.specs.Lists.{onto, onto_at};
ghost use Rattle.model.specs.Columns.{column_form, sheet_form};
ghost use Rattle.column_form.specs.Laid.{LaidOut};
ghost use Rattle.column_form.specs.Grids.{Fits, Spaced, column_copied, rows_copied, Copied};

use crate::grid;
use crate::grid::Grid;
use crate::layout::Layout;

// How many rows are copied for all parties before the next rows are. They are so few that they stay in a first-level cache of 32 KB from one party to the
// next: with seven parties 7 KB are read, and 7 KB written.
const BLOCK: usize = 256;

// The first bytes, so many of them. `copy_from_slice` calls memmove, which the archive is not to ask of a program that links it.
#[tactic(auto, using(algebra::proofs::Lists::writing_more, algebra::proofs::Lists::writing_length, algebra::proofs::Lists::writing_end))]
fn copy_head(s: &[u8], count: usize, out: &mut [u8])
    requires { (count ≤ length s.now) × (count ≤ length out.old) }
    ensures { out.new ≡ onto (take count s.now) out.old }
{
    for j in 0..count {
        out[j] = s[j];
    }
}

// Byte by byte, each read before one is written, which the compiler makes one read and one write of four bytes. `copy_from_slice` would ask of every share
// whether the two places overlap, and takes two thirds longer.
#[tactic(auto, using(crate::proofs::Copying::share_copied))]
fn copy_share(s: &[u8], from: usize, out: &mut [u8], to: usize)
    requires { (from + 4 ≤ length s.now) × (to + 4 ≤ length out.old) }
    ensures { out.new ≡ onto_at to (take 4 (drop from s.now)) out.old }
{
    let a = s[from];
    let b = s[from + 1];
    let c = s[from + 2];
    let d = s[from + 3];
    out[to] = a;
    out[to + 1] = b;
    out[to + 2] = c;
    out[to + 3] = d;
}

// The shares of the grid's first party, of so many rows.
#[tactic(auto, unfolding(crate::specs::Grids::column_copied))]
fn copy_column(s: &[u8], from: Grid, out: &mut [u8], to: Grid, rows: usize)
    requires { Fits from rows 1 (length s.now) × Fits to rows 1 (length s.now) × (length s.now ≤ length out.old) }
    ensures { out.new ≡ column_copied s.now from to rows out.old }
{
    for i in 0..rows {
        copy_share(s, from.first + from.down * i, out, to.first + to.down * i);
    }
}

// So many rows, of so many parties.
#[tactic(auto, unfolding(crate::specs::Grids::rows_copied))]
fn copy_rows(s: &[u8], from: Grid, out: &mut [u8], to: Grid, rows: usize, parties: usize)
    requires { Fits from rows parties (length s.now) × Fits to rows parties (length s.now) × (length s.now ≤ length out.old) }
    ensures { out.new ≡ rows_copied s.now from to rows parties out.old }
{
    for j in 0..parties {
        let read = from.further_on(from.across * j);
        let write = to.further_on(to.across * j);
        copy_column(s, read, out, write, rows);
    }
}

// All rows, block after block.
fn copy_blocks(s: &[u8], from: Grid, out: &mut [u8], to: Grid, rows: usize, parties: usize)
    requires { Fits from rows parties (length s.now) × Fits to rows parties (length s.now) × Spaced to rows parties × (length s.now ≤ length out.old) }
    ensures { Copied s.now from to rows parties out.old out.new }
{
    for i in (0..rows).step_by(BLOCK) {
        let count = BLOCK.min(rows - i);
        let read = from.further_on(from.down * i);
        let write = to.further_on(to.down * i);
        copy_rows(s, read, out, write, count, parties);
    }
}

// A sheet to its column form.
pub fn turn_over(s: &[u8], l: Layout, out: &mut [u8])
    requires { LaidOut s.now (length out.old) l }
    ensures { out.new ≡ onto (column_form s.now) out.old }
{
    copy_head(s, l.place, out);
    let from = grid::sheet_grid(l.place, l.parties);
    let to = grid::column_grid(l.place, l.rows);
    copy_blocks(s, from, out, to, l.rows, l.parties);
}

// A column form to its sheet.
pub fn turn_back(s: &[u8], l: Layout, out: &mut [u8])
    requires { LaidOut s.now (length out.old) l }
    ensures { out.new ≡ onto (sheet_form s.now) out.old }
{
    copy_head(s, l.place, out);
    let from = grid::column_grid(l.place, l.rows);
    let to = grid::sheet_grid(l.place, l.parties);
    copy_blocks(s, from, out, to, l.rows, l.parties);
}
