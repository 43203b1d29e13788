// BITLT.
ghost use Rattle.std.specs.Prelude.{◌-◌, ◌*◌, ◌≤◌, length};
ghost use Rattle.model.specs.Bytes as Bytes;
ghost use Rattle.column_steps.specs.Reads.{Working, Standing, Comes, past, compared};

use crate::column::{Ahead, Column};
use crate::product;
use local::comparison::{first_row, next_row};
use refusals::Refusal;
use secret::Row;
use sharing::rows;

// BITLT of v against w bits, row k of the cells being bit k.
pub fn comparison(
    c: Column,
    at: Ahead,
    part: &[u8],
    log: &[u32],
    v: u32,
    w: usize,
    bits: &[u32],
) -> Result<Row, Refusal>
    requires { Working c × Standing c part.now log.now at 0 (w - 1) × (1 ≤ w) × (7 * w ≤ length bits.now) }
    ensures { Comes c part.now log.now at (past at (w - 1)) 0 (w - 1) (compared c v (Bytes.sevens w bits.now)) result }
{
    let mut lt = first_row(c.setting, v % 2 == 1, rows::cell_row(bits, 0));
    let mut rest = v / 2;
    let mut next = at;
    for k in 1..w {
        let bit = rows::cell_row(bits, k);
        let q = product::product(c, next, part, log, bit, lt)?;
        lt = next_row(c.setting, rest % 2 == 1, bit, lt, q);
        rest /= 2;
        next = next.past(1);
    }
    Ok(lt)
}
