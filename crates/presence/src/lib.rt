// Who is present: the lowest t + 1 present parties, from whose shares an opening is worked, and their weights.
#![tactic(auto)]

ghost use Rattle.std.specs.Prelude.{◌≡◌, ℕ, ◌≤◌, ◌<◌, eqb, length, get_or, take, List, ◌≢◌};
ghost use Rattle.algebra.specs.Lists.{from};
ghost use Rattle.algebra.specs.Lists as Lists;
ghost use Rattle.algebra.specs.Ring.{mul};
ghost use Rattle.model.specs.Fields as Fields;
ghost use Rattle.model.specs.Presence as Presence;
ghost use Rattle.model.specs.Sharing as Sharing;
ghost use Rattle.presence.specs.Openings.{LowestOf, FirstWeights, parties_of, weights_of, WorkedBy};

use field::{arithmetic, table};

// A party and its weight.
#[derive(Clone, Copy)]
pub struct Point {
    pub party: u32,
    pub weight: u32,
}

// How a run works its openings: the byte that says who is present, and the lowest t + 1 present parties with their weights. Points past these have the
// weight 0. The points are four fields, by whose names the four products of an opening are written out.
#[derive(Clone, Copy)]
pub struct Opening {
    pub present: u32,
    pub first: Point,
    pub second: Point,
    pub third: Point,
    pub fourth: Point,
}

// Where nothing is opened.
pub fn no_opening() -> Opening {
    let none = Point {
        party: 1,
        weight: 0,
    };
    Opening {
        present: 0,
        first: none,
        second: none,
        third: none,
        fourth: none,
    }
}

// By the number of parties, the byte that says that all of them are present.
const EVERYONE: [u8; 8] = [0, 1, 3, 7, 15, 31, 63, 127];

#[tactic(auto, unfolding(model::specs::Presence::everyone))]
pub fn everyone(n: usize) -> u8
    requires { n ≤ 7 }
    ensures { result ≡ Presence.everyone n }
{
    EVERYONE[n]
}

// Whether the byte is that of everyone.
pub fn all_present(n: usize, present: u32) -> bool
    requires { n ≤ 7 }
    ensures { result ≡ eqb present (Presence.everyone n) }
{
    present == u32::from(everyone(n))
}

// The lowest present parties, how many there are of them, and what is left of the byte past the bits of parties 1 to n. The parties are an array with a
// count, since nothing here allocates.
#[derive(Clone, Copy)]
pub struct Found {
    pub parties: [usize; 4],
    pub count: usize,
    pub beyond: u32,
}

// At most e of parties 1 to n.
pub fn lowest(n: usize, e: usize, present: u32) -> Found
    requires { (n ≤ 7) × (e ≤ 4) }
    ensures { LowestOf n e present result }
{
    let mut parties = [1usize; 4];
    let mut count = 0;
    for j in 0..n {
        if (present >> j) % 2 == 1 && count < e {
            parties[count] = j + 1;
            count += 1;
        }
    }
    Found {
        parties,
        count,
        beyond: present >> n,
    }
}

// Whether no bit beyond n is set and at least t + 1 parties are present. Everyone is the common case, and needs no search.
#[tactic(auto, using(crate::proofs::Presences::everyone_may, crate::proofs::Presences::permits, crate::proofs::Presences::bits_beyond))]
pub fn permitted(n: usize, t: usize, present: u32) -> bool
    requires { (n ≤ 7) × (t ≤ 3) × (t < n) }
    ensures { result ≡ Presence.permitted_set n t present }
{
    if all_present(n, present) {
        return true;
    }
    let found = lowest(n, t + 1, present);
    found.beyond == 0 && found.count == t + 1
}

// Four to a count e: the binomial coefficients e over 1 to e over 4.
const BINOMIALS: [u32; 16] = [1, 0, 0, 0, 2, 1, 0, 0, 3, 3, 1, 0, 4, 6, 4, 1];

// The Lagrange weight at 0 of party x among parties 1 to e, below p. It is the binomial coefficient e over x, with a minus where x is even.
pub fn weight(p: u32, e: usize, x: usize) -> u32
    requires { Fields.Modulus p × (1 ≤ x) × (x ≤ e) × (e ≤ 4) }
    ensures { (result ≡ Sharing.weight p (from 1 e) x) × (result < p) }
{
    let binomial = BINOMIALS[4 * (e - 1) + (x - 1)];
    if x % 2 == 1 { binomial } else { p - binomial }
}

// z/(z − x) for another party z.
#[tactic(auto, using(model::proofs::Fields::below_four, crate::proofs::Presences::modulus_of, crate::proofs::Presences::ratio_other))]
fn ratio(field: usize, p: u32, x: usize, z: usize) -> u32
    requires { Fields.InUse field × (p ≡ Fields.modulus field) × (x < 8) × (z < 8) × (z ≢ x) }
    ensures { result ≡ Sharing.ratio p x z }
{
    let up = table::inverse(field, z.saturating_sub(x));
    let down = table::inverse(field, x.saturating_sub(z));
    arithmetic::mul(p, z as u32, arithmetic::sub(p, up, down))
}

// The Lagrange weight at 0 of party x among the first e of some parties. A party's own ratio is 1.
fn weight_among(field: usize, parties: [usize; 4], e: usize, x: usize) -> u32
    requires { Fields.InUse field × (e ≤ 4) × (x < 8) × Lists.Below 8 parties }
    ensures { result ≡ Sharing.weight (Fields.modulus field) (take e parties) x }
{
    let p = table::modulus(field);
    let mut weight = 1;
    for &z in parties[..e].iter().rev() {
        if z != x {
            weight = arithmetic::mul(p, ratio(field, p, x, z), weight);
        }
    }
    weight
}

// In the first e places the weights as they are given, and 0 past them.
fn weights_by<F: Fn(usize) -> u32>(e: usize, weight: F) -> [u32; 4]
    requires few { e ≤ 4 }
    requires callable { (i : ℕ) → i < e → F.pre weight i }
    ensures { (p : ℕ) (parties : List ℕ) → length parties ≡ 4 → ((i v : ℕ) → i < e → F.post weight i v → v ≡ Sharing.weight p (take e parties) (get_or parties i 0)) → FirstWeights p parties e result }
{
    let mut weights = [0u32; 4];
    for i in 0..e {
        weights[i] = weight(i);
    }
    weights
}

fn weights_among(field: usize, parties: [usize; 4], e: usize) -> [u32; 4]
    requires { Fields.InUse field × (e ≤ 4) × Lists.Below 8 parties }
    ensures { FirstWeights (Fields.modulus field) parties e result }
{
    weights_by(e, |i| weight_among(field, parties, e, parties[i]))
}

// The weights of parties 1 to e, by which recovery goes too.
fn first_weights(p: u32, e: usize) -> [u32; 4]
    requires { Fields.Modulus p × (e ≤ 4) }
    ensures { FirstWeights p (from 1 4) e result }
{
    weights_by(e, |i| weight(p, e, i + 1))
}

// The points of these parties with these weights.
fn points(present: u32, parties: [usize; 4], weights: [u32; 4]) -> Opening
    requires { Lists.Below 8 parties }
    ensures { (result.present ≡ present) × (parties_of result ≡ parties) × (weights_of result ≡ weights) }
{
    let point = |i: usize| Point {
        party: parties[i] as u32,
        weight: weights[i],
    };
    Opening {
        present,
        first: point(0),
        second: point(1),
        third: point(2),
        fourth: point(3),
    }
}

// How openings are worked with these parties present, which is found once in a run. With everyone present no weight is worked out.
pub fn opening_of(field: usize, n: usize, t: usize, present: u32) -> Opening
    requires { Fields.InUse field × Fields.Parties n t × Presence.PermittedSet n t present }
    ensures { (result.present ≡ present) × WorkedBy (Fields.modulus field) n t result }
{
    let e = t + 1;
    if all_present(n, present) {
        let weights = first_weights(table::modulus(field), e);
        return points(present, [1usize, 2, 3, 4], weights);
    }
    let found = lowest(n, e, present);
    let parties = found.parties;
    let weights = weights_among(field, parties, e);
    points(present, parties, weights)
}
