// The refusals 5 and 6, over the rows of a sheet, which stand in one run.
ghost use Rattle.std.specs.Prelude.{◌≡◌, ◌+◌, ◌*◌, ◌≤◌, length, take};
ghost use Rattle.algebra.specs.Lists as Lists;
ghost use Rattle.model.specs.Fields as Fields;
ghost use Rattle.model.specs.Sharing as Sharing;
ghost use Rattle.model.specs.Sheet as Sheet;

use sharing::rows;

// Whether each share of so many rows, from place i on, is below p.
pub fn all_below(p: u32, n: usize, s: &[u8], i: usize, count: usize) -> bool
    requires { i + 4 * n * count ≤ length s.now }
    ensures { result ≡ Sheet.all (λ x. Lists.all_below p (take n x)) (Sheet.rows_at s.now n i count) }
{
    (0..n * count).all(|k| words::word(s, i + 4 * k) < p)
}

// Whether each of so many rows, from place i on, is a sharing.
pub fn all_sharings(p: u32, n: usize, t: usize, s: &[u8], i: usize, count: usize) -> bool
    requires { Fields.Modulus p × Fields.Parties n t × (i + 4 * n * count ≤ length s.now) }
    ensures { result ≡ Sheet.all (λ x. Sharing.is_sharing p n t x) (Sheet.rows_at s.now n i count) }
{
    (0..count).all(|k| secret::is_sharing(p, n, t, rows::read_row(s, n, i + 4 * n * k)))
}
