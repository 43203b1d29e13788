// The steps that take a mask.
ghost use Rattle.std.specs.Prelude.{◌≡◌, ◌+◌, ◌*◌, ◌≤◌, ◌<◌, length};
ghost use Rattle.model.specs.Fields as Fields;
ghost use Rattle.cuts.specs.Cuts.{width_of, low_of};
ghost use Rattle.step_cases.specs.Placed.{Placed};

use crate::numbers::{times, width, word};
use crate::print::answer;
use cuts::cut;
use cuts::cut::Cut;
use sharing::rows;
use sharing::setting::Setting;
use steps::places::Places;

// The step of a case, with its numbers.
fn cut_of(s: &[u8], k: u32) -> Cut
    requires { 40 ≤ length s.now }
    ensures { width_of result ≡ k }
{
    let m = word(s, 5);
    match word(s, 0) {
        7 => Cut::Mod { k, m },
        8 => Cut::Trunc { k, m },
        9 => Cut::Ltz { k },
        10 => Cut::Over { k, v: word(s, 6) },
        _ => Cut::Blocks { k, m },
    }
}

pub fn run_cuts(s: &[u8], field: usize, setting: Setting, at: Places)
    requires { Fields.InUse field × (setting.p ≡ Fields.modulus field) × Placed s.now setting at }
{
    let n = setting.n;
    let l = setting.l;
    let k = width(s, field);
    if k == 0 {
        return;
    }
    let c = cut_of(s, k);
    let m = cut::low(c) as usize;
    if k as usize <= m || m == 0 || l < m {
        return;
    }
    let triples = l + 2 * m - 2;
    if s.len() - 40 < 4 * n
        || s.len() - at.mask < times(l, 4 * n)
        || s.len() - at.triple < times(triples, 12 * n)
        || 1225 < n + times(triples, 2 * n)
    {
        return;
    }
    let a = rows::read_row(s, n, 40);
    let mut log = [0u32; 1225];
    let row = cut::cut_row(setting, at, s, &mut log[..], c, a);
    answer(s, n, row, &log[..], 1 + 2 * triples);
}
