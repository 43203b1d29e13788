// MOD.
ghost use Rattle.std.specs.Prelude.{◌<◌};
ghost use Rattle.model.specs.Bytes as Bytes;
ghost use Rattle.model.specs.Costs.{mod_triples};
ghost use Rattle.model.specs.Steps as Steps;
ghost use Rattle.sharing.specs.Settings.{setting_of};
ghost use Rattle.local.specs.Unmasking.{MaskBits};
ghost use Rattle.steps.specs.Places.{Room, MaskedRoom};
ghost use Rattle.steps.specs.Promises.{Works, mask_at, MaskedLeaves};
ghost use Rattle.steps.specs.Remainders.{after_c};

use crate::places::Places;
use crate::{comparison, opening, product};
use local::bits;
use local::remainder::{public_numbers, raised_row, unmasked_row};
use secret::Row;
use sharing::rows;
use sharing::setting::Setting;

// What follows C, which is opened, the bits of r being given as cells: "f is BITLT of C against all ℓ bits of r", "u0 is BITLT of C mod 2^m, and u1 of
// (C + p) mod 2^m, each against the low m bits of r", "g = f times (u1 − u0) by MUL; u = u0 + g", and the last line.
fn from_c(
    setting: Setting,
    at: Places,
    s: &[u8],
    log: &mut [u32],
    m: u32,
    c: u32,
    bits: &[u32],
) -> Row
    requires { MaskBits setting m bits.now × (c < setting.p) × Room s.now log.old setting at (mod_triples setting.l m) }
    ensures { Works s.now setting at (mod_triples setting.l m) (after_c setting m c (Bytes.sevens setting.l bits.now)) result.shares log.old log.new }
{
    let l = setting.l;
    let x = public_numbers(setting.p, m, c);
    let f = comparison::comparison(setting, at, s, log, c, l, bits);
    let past_f = at.past(setting, l - 1);
    let u0 = comparison::comparison(setting, past_f, s, log, x.c0, x.m, bits);
    let past_u0 = past_f.past(setting, x.m - 1);
    let u1 = comparison::comparison(setting, past_u0, s, log, x.c1, x.m, bits);
    let past_u1 = past_u0.past(setting, x.m - 1);
    let difference = rows::sub_rows(setting, u1, u0);
    let g = product::product(setting, past_u1, s, log, f, difference);
    let u = rows::add_rows(setting, u0, g);
    unmasked_row(setting, x, bits, f, u)
}

// "MOD takes the next mask r", "It opens C = X + r modulo p", and what follows.
pub fn remainder(
    setting: Setting,
    at: Places,
    s: &[u8],
    log: &mut [u32],
    k: u32,
    m: u32,
    a: Row,
) -> Row
    requires { MaskedRoom s.now log.old setting at k m }
    ensures { MaskedLeaves s.now setting at (mask_at s.now setting at) m (Steps.remainder (setting_of setting) k m a.shares) result.shares log.old log.new }
{
    let l = setting.l;
    let mut cells = [0u32; 217];
    bits::put_rows(setting.n, s, at.mask, l, &mut cells[..]);
    let r = bits::spelled_row(setting, l, &cells[..]);
    let masked = rows::add_rows(setting, raised_row(setting, k, a), r);
    let c = opening::open_at(setting, at.log, log, masked);
    from_c(setting, at.past_mask(setting), s, log, m, c, &cells[..])
}
