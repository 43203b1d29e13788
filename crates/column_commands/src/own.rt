// What a party's column is worked with, and where it goes on.
// What takes a table is not inlined, so that the frame of the caller does not hold a table for each call.
ghost use Rattle.std.specs.Prelude.{◌≡◌, ◌+◌, ◌*◌, ◌^◌, ◌≤◌, ◌<◌, length};
ghost use Rattle.model.specs.Bytes as Bytes;
ghost use Rattle.costs.specs.Costing.{counts_of};
ghost use Rattle.registers.specs.Cells.{Stored};
ghost use Rattle.column_commands.specs.Does.{ahead_of, Reached, Stores};

use column_steps::column::{Ahead, Column};
use costs::counts::Counts;
use registers::table::Table;
use secret::Row;
use sharing::rows;

// How its rows are worked and its openings read, the field's largest k, how many inputs there are, and where the first mask and the first triple stand in
// its part. The first input stands at its start.
#[derive(Clone, Copy)]
pub struct Own {
    pub column: Column,
    pub largest: u32,
    pub inputs: usize,
    pub mask: usize,
    pub triple: usize,
}

// Where the next mask and triple stand, and how many openings were read, where so much was spent.
pub fn ahead_of(own: Own, spent: Counts) -> Ahead
    requires { Reached own (counts_of spent) }
    ensures { result ≡ ahead_of own (counts_of spent) }
{
    let l = own.column.setting.l;
    Ahead {
        mask: own.mask + spent.masks * (4 * l),
        triple: own.triple + 12 * spent.triples,
        opening: spent.openings,
    }
}

// What a step came to: a row goes to register d. In place of a row, a step has a refusal; here it may have anything.
#[inline(never)]
pub fn stored<E>(table: Table, d: usize, made: Result<Row, E>) -> Result<Table, E>
    requires { d < 64 }
    ensures { Stores table d made result }
{
    Ok(table.put(d, made?))
}

// LOAD d: the next input row, of one share
#[inline(never)]
pub fn load(table: Table, part: &[u8], d: usize) -> Table
    requires { (4 * table.spent.counts.inputs + 4 ≤ length part.now) × (d < 64) }
    ensures { Stored d (λ z. z ≡ Bytes.row_at part.now 1 (4 * table.spent.counts.inputs)) table.cells result.cells × (result.spent ≡ table.spent) }
{
    let counts = table.spent.counts;
    table.put(d, rows::read_row(part, 1, 4 * counts.inputs))
}
