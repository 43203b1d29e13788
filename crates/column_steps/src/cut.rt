// MOD, TRUNC, LTZ, OVER and BLOCKS: the remainder of a row made of the operand, and a row made of the remainder.
ghost use Rattle.model.specs.Costs.{mod_triples};
ghost use Rattle.cuts.specs.Cuts.{width_of, low_of};
ghost use Rattle.column_steps.specs.Reads.{Working, Standing, Comes, past, past_mask};
ghost use Rattle.column_steps.specs.Remainders.{KM};
ghost use Rattle.column_steps.specs.Cutting.{cut_tree};

use crate::column::{Ahead, Column};
use crate::remainder;
use cuts::cut;
use cuts::cut::Cut;
use refusals::Refusal;
use secret::Row;

// A cut, whichever it is.
pub fn cut_row(
    c: Column,
    at: Ahead,
    part: &[u8],
    log: &[u32],
    y: Cut,
    a: Row,
) -> Result<Row, Refusal>
    requires { Working c × Standing c part.now log.now at 1 (mod_triples c.setting.l (low_of y)) × KM c.setting (width_of y) (low_of y) }
    ensures { Comes c part.now log.now at (past (past_mask c.setting.l at) (mod_triples c.setting.l (low_of y))) 1 (mod_triples c.setting.l (low_of y)) (cut_tree c y a.shares) result }
{
    let k = cut::width(y);
    let m = cut::low(y);
    let x = cut::before(c.setting, y, a);
    let rest = remainder::remainder(c, at, part, log, k, m, x)?;
    Ok(cut::after(c.setting, y, m, x, rest))
}
