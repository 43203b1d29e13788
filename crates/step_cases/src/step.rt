// A case's setting and places, and its step: MUL and BITLT here.
ghost use Rattle.std.specs.Prelude.{◌≡◌, ◌+◌, ◌-◌, ◌*◌, ◌≤◌, ◌<◌, length, IfSome};
ghost use Rattle.model.specs.Fields as Fields;
ghost use Rattle.sharing.specs.Settings.{Fitting};
ghost use Rattle.step_cases.specs.Words.{mask_rows};
ghost use Rattle.step_cases.specs.Placed.{Placed};

use crate::masked;
use crate::numbers::{times, up_to, word};
use crate::print::answer;
use field::table;
use local::bits;
use sharing::rows;
use sharing::setting::Setting;
use steps::places::Places;
use steps::{comparison, product};

// Answers what follows the case, where it is all there, its field is in use, and n and t are permitted.
#[tactic(auto, using(model::proofs::Trying::setting_field, model::proofs::Trying::setting_people))]
pub fn run_case(s: &[u8]) -> Option<&[u8]>
    ensures { IfSome result (λ rest. length rest.now < length s.now) }
{
    if s.len() < 40 {
        return None;
    }
    let field = word(s, 1);
    let n = word(s, 2);
    let t = word(s, 3);
    sharing::check_setting(field, n, t).ok()?;
    run_rows(
        s,
        field as usize,
        setting_of(field as usize, n as usize, t as usize),
    )
}

// With everyone present.
fn setting_of(field: usize, n: usize, t: usize) -> Setting
    requires { Fields.InUse field × Fields.Parties n t }
    ensures { Fitting result × (result.p ≡ Fields.modulus field) }
{
    let p = table::modulus(field);
    let l = table::bits(field) as usize;
    let present = u32::from(presence::everyone(n));
    let opening = presence::opening_of(field, n, t, present);
    Setting {
        p,
        l,
        n,
        t,
        opening,
    }
}

// The operands' rows stand from byte 40 on, then those of the masks, then the triples. The counts are held to the most that a step takes, so that
// the places fit.
fn places_of(s: &[u8], setting: Setting) -> Places
    requires { (40 ≤ length s.now) × Fitting setting }
    ensures { (40 ≤ result.mask) × (result.mask ≤ result.triple) × (result.triple ≤ 30000) × (result.log ≡ 0) }
{
    let operands = up_to(word(s, 7), 31);
    let mask = 40 + times(operands, 4 * setting.n);
    let triple = mask + times(mask_rows(word(s, 8), setting.l), 4 * setting.n);
    Places {
        mask,
        triple,
        log: 0,
    }
}

fn run_rows(s: &[u8], field: usize, setting: Setting) -> Option<&[u8]>
    requires { (40 ≤ length s.now) × Fields.InUse field × Fitting setting × (setting.p ≡ Fields.modulus field) }
    ensures { IfSome result (λ rest. length rest.now < length s.now) }
{
    let at = places_of(s, setting);
    let end = at.triple + times(up_to(word(s, 9), 87), 12 * setting.n);
    if s.len() < end {
        return None;
    }
    run_step(s, field, setting, at);
    Some(&s[end..])
}

// A mask is l rows, and a case has one or none.
fn mask_rows(masks: u32, l: usize) -> usize
    ensures { (result ≡ mask_rows masks l) × (result ≤ l) }
{
    if masks == 0 { 0 } else { l }
}

fn run_step(s: &[u8], field: usize, setting: Setting, at: Places)
    requires { Fields.InUse field × (setting.p ≡ Fields.modulus field) × Placed s.now setting at }
{
    match word(s, 0) {
        6 => multiply(s, setting, at),
        13 => compare(s, setting, at),
        _ => masked::run_cuts(s, field, setting, at),
    }
}

// MUL of the two operands.
fn multiply(s: &[u8], setting: Setting, at: Places)
    requires { Placed s.now setting at }
{
    let n = setting.n;
    if s.len() - 40 < 8 * n || s.len() - at.triple < 12 * n {
        return;
    }
    let left = rows::read_row(s, n, 40);
    let right = rows::read_row(s, n, 40 + 4 * n);
    let mut log = [0u32; 14];
    let row = product::product(setting, at, s, &mut log[..], left, right);
    answer(s, n, row, &log[..], 2);
}

// BITLT of v against w operands.
fn compare(s: &[u8], setting: Setting, at: Places)
    requires { Placed s.now setting at }
{
    let n = setting.n;
    let w = up_to(word(s, 5), 31);
    if w == 0
        || s.len() - 40 < times(w, 4 * n)
        || s.len() - at.triple < times(w - 1, 12 * n)
        || 420 < times(w - 1, 2 * n)
    {
        return;
    }
    let mut cells = [0u32; 217];
    bits::put_rows(n, s, 40, w, &mut cells[..]);
    let v = word(s, 6);
    let mut log = [0u32; 420];
    let row = comparison::comparison(setting, at, s, &mut log[..], v, w, &cells[..]);
    answer(s, n, row, &log[..], 2 * (w - 1));
}
