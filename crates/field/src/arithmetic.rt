// Arithmetic modulo p, total on 32-bit numbers: only p must be a modulus of the table. Operands below p, the usual case, cost no division
// but in a product.
ghost use Rattle.std.specs.Prelude.{◌≡◌, ◌%◌, ◌<◌};
ghost use Rattle.algebra.specs.Ring as Ring;
ghost use Rattle.model.specs.Fields as Fields;

// a modulo p.
fn reduce(p: u32, a: u32) -> u32
    requires { Fields.Modulus p }
    ensures { (result ≡ a % p) × (result < p) }
{
    if a < p { a } else { a % p }
}

#[tactic(auto, using(crate::proofs::Residues::add_low, crate::proofs::Residues::add_high))]
pub fn add(p: u32, a: u32, b: u32) -> u32
    requires { Fields.Modulus p }
    ensures { (result ≡ Ring.add p a b) × (result < p) }
{
    let sum = reduce(p, a) + reduce(p, b);
    if sum < p { sum } else { sum - p }
}

#[tactic(auto, using(crate::proofs::Residues::sub_low, crate::proofs::Residues::sub_high))]
pub fn sub(p: u32, a: u32, b: u32) -> u32
    requires { Fields.Modulus p }
    ensures { (result ≡ Ring.sub p a b) × (result < p) }
{
    let left = reduce(p, a);
    let right = reduce(p, b);
    if right <= left {
        left - right
    } else {
        left + (p - right)
    }
}

pub fn mul(p: u32, a: u32, b: u32) -> u32
    requires { Fields.Modulus p }
    ensures { (result ≡ Ring.mul p a b) × (result < p) }
{
    (u64::from(a) * u64::from(b) % u64::from(p)) as u32
}

pub fn negate(p: u32, a: u32) -> u32
    requires { Fields.Modulus p }
    ensures { (result ≡ Ring.sub p 0 a) × (result < p) }
{
    sub(p, 0, a)
}

// 2^m modulo p.
pub fn power_of_two(p: u32, m: u32) -> u32
    requires { Fields.Modulus p × (m < 32) }
    ensures { (result ≡ Fields.power_of_2 p m) × (result < p) }
{
    reduce(p, 1 << m)
}

// The inverse of 2^m modulo p.
pub fn inverse_power_of_two(p: u32, m: u32) -> u32
    requires { Fields.Modulus p }
    ensures { (result ≡ Fields.inverse_power_of_2 p m) × (result < p) }
{
    let half = (p + 1) / 2;
    let mut r: u32 = 1;
    for _i in 0..m {
        r = mul(p, half, r);
    }
    r
}
