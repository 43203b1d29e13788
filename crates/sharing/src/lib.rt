// Shamir's sharing: rows of shares, what is opened of them, and the entries share, recover and sum.
#![tactic(auto)]

pub mod opening;
pub mod polynomial;
pub mod rows;
pub mod setting;

ghost use Rattle.std.specs.Prelude.{◌≡◌};
ghost use Rattle.model.specs.Fields as Fields;
ghost use Rattle.model.specs.Refusing.{first_failed};
ghost use Rattle.refusals.specs.Numbers.{told, given_or};
ghost use Rattle.model.specs.Entries.{share_tests, share_number, share_left, recover_tests, recover_number, recover_value, recover_left, sum_number, sum_value};

use field::table;
use refusals::Refusal;

// Shares a secret with t coefficients, the first power's first: share j goes to shares[j - 1]. Refuses 2, 3, 4, 5, and then nothing is written.
pub fn share(
    field: u32,
    n: u32,
    t: u32,
    secret: u32,
    coefficients: &[u32],
    shares: &mut [u32],
) -> Result<(), Refusal>
    ensures number { told result ≡ share_number field n t secret coefficients.now shares.old }
    ensures left { shares.new ≡ share_left field n t secret coefficients.now shares.old }
{
    shareable(field, n, t, secret, coefficients, shares.len())?;
    let p = table::modulus(field as usize);
    let row = polynomial::share_row(p, n as usize, secret, coefficients);
    rows::put_shares(shares, 0, row, n as usize);
    Ok(())
}

// Recovers secret and coefficients from a row of n shares. Refuses 2, 3, 4, 5, 6, and then nothing is written.
pub fn recover(
    field: u32,
    n: u32,
    t: u32,
    row: &[u32],
    coefficients: &mut [u32],
) -> Result<u32, Refusal>
    ensures number { told result ≡ recover_number field n t row.now coefficients.old }
    ensures value { given_or 0 result ≡ recover_value field n t row.now coefficients.old }
    ensures left { coefficients.new ≡ recover_left field n t row.now coefficients.old }
{
    recoverable(field, n, t, row, coefficients.len())?;
    let f = field as usize;
    let cells = rows::gather(row);
    let value = secret::secret_of(table::modulus(f), t as usize, cells);
    polynomial::put_coefficients(f, t as usize, cells, value, coefficients);
    Ok(value)
}

// The sum before reducing, of a row of n shares: each of shares 1 to t + 1 times its weight below p, added. It refuses as recover does where that is
// lent a list of t places: 2, 3, 4, 5, 6.
pub fn sum(field: u32, n: u32, t: u32, row: &[u32]) -> Result<u64, Refusal>
    ensures number { told result ≡ sum_number field n t row.now }
    ensures value { given_or 0 result ≡ sum_value field n t row.now }
{
    recoverable(field, n, t, row, t as usize)?;
    let p = table::modulus(field as usize);
    Ok(secret::secret_sum(p, t as usize, rows::gather(row)))
}

// What share refuses, of a lent list of the given length.
#[tactic(auto, using(model::proofs::Trying::trying, crate::proofs::Numbers::below_told), unfolding(model::specs::Entries::share_tests))]
fn shareable(
    field: u32,
    n: u32,
    t: u32,
    secret: u32,
    coefficients: &[u32],
    lent: usize,
) -> Result<(), Refusal>
    ensures { told result ≡ first_failed (share_tests field n t secret coefficients.now lent) }
{
    check_setting(field, n, t)?;
    if coefficients.len() != t as usize || lent != n as usize {
        return Err(Refusal::BadLength);
    }
    let p = table::modulus(field as usize);
    if p <= secret || !secret::all_below(p, coefficients) {
        return Err(Refusal::NotBelowP);
    }
    Ok(())
}

// What recover refuses, of a lent list of the given length.
#[tactic(auto, using(model::proofs::Trying::trying, crate::proofs::Numbers::below_told, crate::proofs::Numbers::sharing_told), unfolding(model::specs::Entries::recover_tests))]
fn recoverable(field: u32, n: u32, t: u32, row: &[u32], lent: usize) -> Result<(), Refusal>
    ensures { told result ≡ first_failed (recover_tests field n t row.now lent) }
{
    check_setting(field, n, t)?;
    if row.len() != n as usize || lent != t as usize {
        return Err(Refusal::BadLength);
    }
    let p = table::modulus(field as usize);
    if !secret::all_below(p, row) {
        return Err(Refusal::NotBelowP);
    }
    if !secret::is_sharing(p, n as usize, t as usize, rows::gather(row)) {
        return Err(Refusal::NoSharing);
    }
    Ok(())
}

// 2, 3 or nothing.
#[tactic(auto, using(model::proofs::Trying::trying), unfolding(model::specs::Fields::setting_tests))]
pub fn check_setting(field: u32, n: u32, t: u32) -> Result<(), Refusal>
    ensures { told result ≡ first_failed (Fields.setting_tests field n t) }
{
    table::check_field(field)?;
    if parties(n, t) {
        Ok(())
    } else {
        Err(Refusal::BadParties)
    }
}

// Whether n parties may share with threshold t.
#[tactic(auto, unfolding(model::specs::Fields::parties))]
pub fn parties(n: u32, t: u32) -> bool
    ensures { result ≡ Fields.parties n t }
{
    3 <= n && n <= 7 && 1 <= t && t <= (n - 1) / 2
}
