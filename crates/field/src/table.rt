// "Four fields are held in one constant table", by field number.
ghost use Rattle.std.specs.Prelude.{◌≡◌, ◌<◌};
ghost use Rattle.model.specs.Fields as Fields;
ghost use Rattle.model.specs.Refusing.{first_failed};
ghost use Rattle.refusals.specs.Numbers.{told};

use refusals::Refusal;

// The modulus p, its bit length, the largest k, and the inverses of 0 to 7, with 0 for that of 0.
#[derive(Clone, Copy)]
struct Field {
    modulus: u32,
    bits: u32,
    largest_k: u32,
    inverses: [u32; 8],
}

const FIELDS: [Field; 4] = [
    Field {
        modulus: 13,
        bits: 4,
        largest_k: 3,
        inverses: [0, 1, 7, 9, 10, 8, 11, 2],
    },
    Field {
        modulus: 251,
        bits: 8,
        largest_k: 7,
        inverses: [0, 1, 126, 84, 63, 201, 42, 36],
    },
    Field {
        modulus: 65521,
        bits: 16,
        largest_k: 15,
        inverses: [0, 1, 32761, 43681, 49141, 52417, 54601, 56161],
    },
    Field {
        modulus: 2147483647,
        bits: 31,
        largest_k: 30,
        inverses: [
            0, 1, 1073741824, 1431655765, 536870912, 858993459, 1789569706, 1840700269,
        ],
    },
];

// Whether a field is in use.
#[tactic(auto, using(crate::proofs::Entries::below_4))]
pub fn in_use(field: u32) -> bool
    ensures { result ≡ Fields.in_use field }
{
    field < 4
}

// 2 where a field is not in use.
#[tactic(auto, using(model::proofs::Trying::trying), unfolding(model::specs::Fields::field_tests))]
pub fn check_field(field: u32) -> Result<(), Refusal>
    ensures { told result ≡ first_failed (Fields.field_tests field) }
{
    if in_use(field) {
        Ok(())
    } else {
        Err(Refusal::BadField)
    }
}

pub fn modulus(field: usize) -> u32
    requires { Fields.InUse field }
    ensures { (result ≡ Fields.modulus field) × Fields.Modulus result }
{
    FIELDS[field].modulus
}

pub fn bits(field: usize) -> u32
    requires { field < 4 }
    ensures { result ≡ Fields.bits field }
{
    FIELDS[field].bits
}

pub fn largest_k(field: usize) -> u32
    requires { field < 4 }
    ensures { result ≡ Fields.largest_k field }
{
    FIELDS[field].largest_k
}

// 1/d modulo p, and 0 for d = 0.
pub fn inverse(field: usize, d: usize) -> u32
    requires { (field < 4) × (d < 8) }
    ensures { result ≡ Fields.inverse (Fields.modulus field) d }
{
    FIELDS[field].inverses[d]
}
