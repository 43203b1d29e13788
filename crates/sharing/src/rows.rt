// Rows by value: read, written, and worked column by column.
ghost use Rattle.std.specs.Prelude.{◌≡◌, ◌+◌, ◌*◌, ◌≤◌, length, take, drop};
ghost use Rattle.algebra.specs.Lists as Lists;
ghost use Rattle.algebra.specs.Rows as Rows;
ghost use Rattle.model.specs.Bytes as Bytes;
ghost use Rattle.model.specs.Steps as Steps;
ghost use Rattle.sharing.specs.Settings.{setting_of, Fitting};

use crate::setting::Setting;
use field::arithmetic;
use secret::Row;

// A list of at most seven shares as a row.
pub fn gather(xs: &[u32]) -> Row
    requires { length xs.now ≤ 7 }
    ensures { result.shares ≡ Rows.padded xs.now }
{
    let mut shares = [0u32; 7];
    for (j, &x) in xs.iter().enumerate() {
        shares[j] = x;
    }
    Row { shares }
}

// A row of n shares of 4 bytes, from place i on.
#[tactic(auto, unfolding(model::specs::Bytes::row_at))]
pub fn read_row(s: &[u8], n: usize, i: usize) -> Row
    requires { (n ≤ 7) × (i + 4 * n ≤ length s.now) }
    ensures { result.shares ≡ Bytes.row_at s.now n i }
{
    Row::of(n, |j| words::word(s, i + 4 * j))
}

// Row k of a list of cells, seven to a row.
pub fn cell_row(cells: &[u32], k: usize) -> Row
    requires { 7 * k + 7 ≤ length cells.now }
    ensures { result.shares ≡ take 7 (drop (7 * k) cells.now) }
{
    Row::of(7, |j| cells[7 * k + j])
}

// The row's first n shares go to the list, from a place on.
pub fn put_shares(list: &mut [u32], at: usize, row: Row, n: usize)
    requires { (n ≤ 7) × (at + n ≤ length list.old) }
    ensures { list.new ≡ Lists.onto_at at (take n row.shares) list.old }
{
    for j in 0..n {
        list[at + j] = row.shares[j];
    }
}

#[tactic(auto, unfolding(model::specs::Steps::plus))]
pub fn add_rows(setting: Setting, a: Row, b: Row) -> Row
    requires { Fitting setting }
    ensures { result.shares ≡ Steps.plus (setting_of setting) a.shares b.shares }
{
    Row::of(
        setting.n,
        |j| arithmetic::add(setting.p, a.shares[j], b.shares[j]),
    )
}

#[tactic(auto, unfolding(model::specs::Steps::minus))]
pub fn sub_rows(setting: Setting, a: Row, b: Row) -> Row
    requires { Fitting setting }
    ensures { result.shares ≡ Steps.minus (setting_of setting) a.shares b.shares }
{
    Row::of(
        setting.n,
        |j| arithmetic::sub(setting.p, a.shares[j], b.shares[j]),
    )
}

// A row times a public value.
#[tactic(auto, unfolding(model::specs::Steps::times))]
pub fn scale_row(setting: Setting, c: u32, a: Row) -> Row
    requires { Fitting setting }
    ensures { result.shares ≡ Steps.times (setting_of setting) c a.shares }
{
    Row::of(setting.n, |j| arithmetic::mul(setting.p, c, a.shares[j]))
}

// The row whose every share is v.
#[tactic(auto, unfolding(model::specs::Steps::constant))]
pub fn constant_row(setting: Setting, v: u32) -> Row
    requires { Fitting setting }
    ensures { result.shares ≡ Steps.constant (setting_of setting) v }
{
    Row::of(setting.n, |_| v)
}

// a + c·b, in one pass: what spelled numbers and MOD's last line are made of.
#[tactic(auto, using(crate::proofs::Columns::times_at), unfolding(model::specs::Steps::plus))]
pub fn add_scaled(setting: Setting, a: Row, c: u32, b: Row) -> Row
    requires { Fitting setting }
    ensures { result.shares ≡ Steps.plus (setting_of setting) a.shares (Steps.times (setting_of setting) c b.shares) }
{
    let p = setting.p;
    Row::of(
        setting.n,
        |j| arithmetic::add(p, a.shares[j], arithmetic::mul(p, c, b.shares[j])),
    )
}

// a + v, in one pass.
#[tactic(auto, using(crate::proofs::Columns::constant_at), unfolding(model::specs::Steps::plus))]
pub fn add_public(setting: Setting, a: Row, v: u32) -> Row
    requires { Fitting setting }
    ensures { result.shares ≡ Steps.plus (setting_of setting) a.shares (Steps.constant (setting_of setting) v) }
{
    Row::of(setting.n, |j| arithmetic::add(setting.p, a.shares[j], v))
}
