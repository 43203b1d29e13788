// MOD.
ghost use Rattle.std.specs.Prelude.{◌<◌};
ghost use Rattle.model.specs.Bytes as Bytes;
ghost use Rattle.model.specs.Costs.{mod_triples};
ghost use Rattle.local.specs.Unmasking.{MaskBits};
ghost use Rattle.column_steps.specs.Reads.{Working, Standing, Comes, past, past_mask};
ghost use Rattle.column_steps.specs.Remainders.{after_c, KM, modded};

use crate::column::{Ahead, Column};
use crate::{column, comparison, product};
use local::bits;
use local::remainder::{public_numbers, raised_row, unmasked_row};
use refusals::Refusal;
use secret::Row;
use sharing::rows;

// What follows C, which is opened, the bits of r being given as cells: "f is BITLT of C against all ℓ bits of r", "u0 is BITLT of C mod 2^m, and u1 of
// (C + p) mod 2^m, each against the low m bits of r", "g = f times (u1 − u0) by MUL; u = u0 + g", and the last line.
fn from_c(
    c: Column,
    at: Ahead,
    part: &[u8],
    log: &[u32],
    m: u32,
    opened: u32,
    bits: &[u32],
) -> Result<Row, Refusal>
    requires { Working c × Standing c part.now log.now at 0 (mod_triples c.setting.l m) × MaskBits c.setting m bits.now × (opened < c.setting.p) }
    ensures { Comes c part.now log.now at (past at (mod_triples c.setting.l m)) 0 (mod_triples c.setting.l m) (after_c c m opened (Bytes.sevens c.setting.l bits.now)) result }
{
    let l = c.setting.l;
    let x = public_numbers(c.setting.p, m, opened);
    let f = comparison::comparison(c, at, part, log, opened, l, bits)?;
    let past_f = at.past(l - 1);
    let u0 = comparison::comparison(c, past_f, part, log, x.c0, x.m, bits)?;
    let past_u0 = past_f.past(x.m - 1);
    let u1 = comparison::comparison(c, past_u0, part, log, x.c1, x.m, bits)?;
    let past_u1 = past_u0.past(x.m - 1);
    let difference = rows::sub_rows(c.setting, u1, u0);
    let g = product::product(c, past_u1, part, log, f, difference)?;
    let u = rows::add_rows(c.setting, u0, g);
    Ok(unmasked_row(c.setting, x, bits, f, u))
}

// "MOD takes the next mask r", "It opens C = X + r modulo p", and what follows.
pub fn remainder(
    c: Column,
    at: Ahead,
    part: &[u8],
    log: &[u32],
    k: u32,
    m: u32,
    a: Row,
) -> Result<Row, Refusal>
    requires { Working c × Standing c part.now log.now at 1 (mod_triples c.setting.l m) × KM c.setting k m }
    ensures { Comes c part.now log.now at (past (past_mask c.setting.l at) (mod_triples c.setting.l m)) 1 (mod_triples c.setting.l m) (modded c k m a.shares) result }
{
    let l = c.setting.l;
    let mut cells = [0u32; 217];
    bits::put_rows(1, part, at.mask, l, &mut cells[..]);
    let r = bits::spelled_row(c.setting, l, &cells[..]);
    let masked = rows::add_rows(c.setting, raised_row(c.setting, k, a), r);
    let opened = column::open_row(c, log, at.opening, masked)?;
    from_c(c, at.past_mask(l), part, log, m, opened, &cells[..])
}
