// MUL.
ghost use Rattle.model.specs.Trees.{multiply};
ghost use Rattle.column_steps.specs.Reads.{Working, Standing, Comes, past};

use crate::column;
use crate::column::{Ahead, Column};
use refusals::Refusal;
use secret::Row;
use sharing::rows;

// "takes the next triple, opens a1 = left − a, then b1 = right − b, leaves c + a1·b + b1·a + a1·b1".
pub fn product(
    c: Column,
    at: Ahead,
    part: &[u8],
    log: &[u32],
    left: Row,
    right: Row,
) -> Result<Row, Refusal>
    requires { Working c × Standing c part.now log.now at 0 1 }
    ensures { Comes c part.now log.now at (past at 1) 0 1 (multiply left.shares right.shares) result }
{
    let i = at.triple;
    let a = rows::read_row(part, 1, i);
    let b = rows::read_row(part, 1, i + 4);
    let third = rows::read_row(part, 1, i + 8);
    let a1 = column::open_row(c, log, at.opening, rows::sub_rows(c.setting, left, a))?;
    let b1 = column::open_row(c, log, at.opening + 1, rows::sub_rows(c.setting, right, b))?;
    Ok(local::product::beaver(c.setting, a1, b1, a, b, third))
}
