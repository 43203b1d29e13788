// The ten words of a case, and numbers kept small enough to compute places with.
ghost use Rattle.std.specs.Prelude.{◌≡◌, ◌*◌, ◌^◌, ◌≤◌, ◌<◌, min, length};
ghost use Rattle.model.specs.Fields as Fields;
ghost use Rattle.step_cases.specs.Words.{word_of};

use field::table;

// Word i of a case.
pub fn word(s: &[u8], i: usize) -> u32
    requires { (40 ≤ length s.now) × (i ≤ 9) }
    ensures { result ≡ word_of s.now i }
{
    words::word(s, 4 * i)
}

pub fn up_to(x: u32, most: usize) -> usize
    ensures { (result ≡ min x most) × (result ≤ most) }
{
    (x as usize).min(most)
}

pub fn times(x: usize, y: usize) -> usize
    requires { (x ≤ 100) × (y ≤ 100) }
    ensures { (result ≡ x * y) × (result ≤ 10000) }
{
    x * y
}

// A case's k, or the largest of the field.
pub fn width(s: &[u8], field: usize) -> u32
    requires { (40 ≤ length s.now) × Fields.InUse field }
    ensures { (result ≡ min (word_of s.now 4) (Fields.largest_k field)) × (result ≤ 30) × (2 ^ result < Fields.modulus field) }
{
    word(s, 4).min(table::largest_k(field))
}
