// The numbers of an opening, as a row and as the byte of those present.
ghost use Rattle.std.specs.Prelude.{◌≡◌, ℕ, ◌+◌, ◌≤◌, ◌<◌, length, get_or, drop, IfOk, IfErr};
ghost use Rattle.refusals.specs.declared.Refusal.TheVariants.{BadOpening};
ghost use Rattle.from_record.specs.Showing.{Further, Gathered};

use refusals::Refusal;

// The row has 0 for an absent share.
#[derive(Clone, Copy)]
pub struct Shown {
    pub shares: [u32; 7],
    pub present: u32,
}

// The number of column j is looked at, those of the columns after it being known: it is a share, or p.
fn look_at(mut shown: Shown, p: u32, j: usize, number: u32) -> Shown
    requires { (j < 7) × (shown.present < 64) × (number ≤ p) }
    ensures { Further p j number shown result }
{
    shown.present = 2 * shown.present;
    if number < p {
        shown.shares[j] = number;
        shown.present += 1;
    }
    shown
}

// The n numbers of the record from a place on, none of which may be above p.
pub fn shown_in(p: u32, n: usize, log: &[u32], at: usize) -> Result<Shown, Refusal>
    requires { (0 < p) × (n ≤ 7) × (at + n ≤ length log.now) }
    ensures ok { IfOk result (Gathered p n 0 (drop at log.now)) }
    ensures err { IfErr result (λ e. (e ≡ BadOpening) × (((i : ℕ) → i < n → get_or (drop at log.now) i 0 ≤ p) → ⊥)) }
{
    let mut shown = Shown {
        shares: [0u32; 7],
        present: 0,
    };
    for j in (0..n).rev() {
        let number = log[at + j];
        if p < number {
            return Err(Refusal::BadOpening);
        }
        shown = look_at(shown, p, j, number);
    }
    Ok(shown)
}
