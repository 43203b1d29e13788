// Signed numbers as field values, and back.
ghost use Rattle.std.specs.Prelude.{◌≡◌, ◌-◌, ◌^◌, ◌≤◌, ◌<◌};
ghost use Rattle.std.specs.Int.Signed.{mag, non_neg};
ghost use Rattle.field.specs.Signed.{signed_of};
ghost use Rattle.model.specs.Fields as Fields;
ghost use Rattle.model.specs.Coding as Coding;

// The three functions that work on a signed number. The library's mag is n for n and for -(n + 1).
pub fn non_negative(a: i64) -> bool
    ensures { result ≡ non_neg a }
{
    0 <= a
}

pub fn magnitude(a: i64) -> u64
    ensures { (result ≡ mag a) × (result < 2 ^ 63) }
{
    if 0 <= a { a as u64 } else { (-1 - a) as u64 }
}

// m, or -(m + 1).
pub fn signed(up: bool, m: u64) -> i64
    requires { m < 2 ^ 63 }
    ensures { result ≡ signed_of up m }
{
    let a = m as i64;
    if up { a } else { -1 - a }
}

// Whether a lies in the k-bit range.
pub fn in_range(k: u32, a: i64) -> bool
    requires { (2 ≤ k) × (k < 32) }
    ensures { result ≡ Coding.in_range k a }
{
    let half: u64 = 1 << (k - 1);
    magnitude(a) < half
}

// A signed number of a size below p, as a field value.
#[tactic(auto, using(crate::proofs::Coded::code_up, crate::proofs::Coded::code_down))]
pub fn code(p: u32, a: i64) -> u32
    requires { Fields.Modulus p × (mag a < p) }
    ensures { result ≡ Coding.code p a }
{
    let m = magnitude(a) as u32;
    if non_negative(a) { m } else { p - 1 - m }
}

// A field value, read back as a signed number.
pub fn read_back(p: u32, v: u32) -> i64
    requires { Fields.Modulus p × (v < p) }
    ensures { result ≡ Coding.read_back p v }
{
    let half = (p - 1) / 2;
    if v <= half {
        signed(true, u64::from(v))
    } else {
        signed(false, u64::from(p - 1 - v))
    }
}
