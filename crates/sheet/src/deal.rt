// The refusals 7 and 8: "A mask is well formed when its ℓ secrets are bits and the number they spell is below p; a triple when c's secret is a
// times b modulo p."
ghost use Rattle.std.specs.Prelude.{◌≡◌, ◌+◌, ◌*◌, ◌≤◌, length};
ghost use Rattle.model.specs.Sheet as Sheet;
ghost use Rattle.sharing.specs.Settings.{setting_of, Fitting};

use field::arithmetic;
use sharing::rows;
use sharing::setting::Setting;

// Whether the mask whose rows stand from place i on is well formed: v is what its first k bits spell.
fn good_mask(setting: Setting, s: &[u8], i: usize) -> bool
    requires { Fitting setting × (i + 4 * setting.n * setting.l ≤ length s.now) }
    ensures { result ≡ Sheet.good_mask (setting_of setting) (Sheet.rows_at s.now setting.n i setting.l) }
{
    let p = setting.p;
    let n = setting.n;
    let mut v: u32 = 0;
    for k in 0..setting.l {
        let bit = secret::secret_of(p, setting.t, rows::read_row(s, n, i + 4 * n * k));
        if 1 < bit {
            return false;
        }
        v += bit << k;
    }
    v < p
}

// Whether each of so many masks, from place i on, is well formed.
pub fn good_masks(setting: Setting, s: &[u8], i: usize, count: usize) -> bool
    requires { Fitting setting × (i + 4 * setting.n * setting.l * count ≤ length s.now) }
    ensures { result ≡ Sheet.all (Sheet.good_mask (setting_of setting)) (Sheet.masks_from s.now setting.n setting.l i count) }
{
    (0..count).all(|k| good_mask(setting, s, i + 4 * setting.n * setting.l * k))
}

// Whether the triple whose three rows stand from place i on is well formed.
#[tactic(auto, unfolding(model::specs::Sheet::good_triple))]
fn good_triple(setting: Setting, s: &[u8], i: usize) -> bool
    requires { Fitting setting × (i + 4 * setting.n * 3 ≤ length s.now) }
    ensures { result ≡ Sheet.good_triple (setting_of setting) (Sheet.triple_at s.now setting.n i) }
{
    let p = setting.p;
    let n = setting.n;
    let t = setting.t;
    let a = secret::secret_of(p, t, rows::read_row(s, n, i));
    let b = secret::secret_of(p, t, rows::read_row(s, n, i + 4 * n));
    let c = secret::secret_of(p, t, rows::read_row(s, n, i + 4 * n * 2));
    c == arithmetic::mul(p, a, b)
}

// Whether each of so many triples, from place i on, is well formed.
pub fn good_triples(setting: Setting, s: &[u8], i: usize, count: usize) -> bool
    requires { Fitting setting × (i + 4 * setting.n * 3 * count ≤ length s.now) }
    ensures { result ≡ Sheet.all (Sheet.good_triple (setting_of setting)) (Sheet.triples_from s.now setting.n i count) }
{
    (0..count).all(|k| good_triple(setting, s, i + 4 * setting.n * 3 * k))
}
