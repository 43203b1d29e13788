// The four fields: their constant table, arithmetic modulo p, and signed numbers as field values.
#![tactic(auto)]

pub mod arithmetic;
pub mod coding;
pub mod table;

ghost use Rattle.std.specs.Prelude.{◌≡◌, pos};
ghost use Rattle.refusals.specs.Numbers.{told, given_or};
ghost use Rattle.model.specs.Entries.{encode_number, encode_value, decode_number, decode_value};

use refusals::Refusal;

// A k-bit signed number as a value of the field. Refuses 2, 11.
pub fn encode(field: u32, k: u32, a: i64) -> Result<u32, Refusal>
    ensures number { told result ≡ encode_number field k a }
    ensures value { given_or 0 result ≡ encode_value field k a }
{
    encodable(field, k, a)?;
    Ok(coding::code(table::modulus(field as usize), a))
}

// A field value read back as a signed number. Refuses 2, 5.
pub fn decode(field: u32, v: u32) -> Result<i64, Refusal>
    ensures number { told result ≡ decode_number field v }
    ensures value { given_or (pos 0) result ≡ decode_value field v }
{
    decodable(field, v)?;
    Ok(coding::read_back(table::modulus(field as usize), v))
}

// 2, 11 or nothing.
#[tactic(auto, using(model::proofs::Trying::trying), unfolding(model::specs::Entries::encode_tests))]
fn encodable(field: u32, k: u32, a: i64) -> Result<(), Refusal>
    ensures { told result ≡ encode_number field k a }
{
    table::check_field(field)?;
    if k < 2 {
        return Err(Refusal::OutOfRange);
    }
    if table::largest_k(field as usize) < k {
        return Err(Refusal::OutOfRange);
    }
    if coding::in_range(k, a) {
        Ok(())
    } else {
        Err(Refusal::OutOfRange)
    }
}

// 2, 5 or nothing.
#[tactic(auto, using(model::proofs::Trying::trying), unfolding(model::specs::Entries::decode_tests))]
fn decodable(field: u32, v: u32) -> Result<(), Refusal>
    ensures { told result ≡ decode_number field v }
{
    table::check_field(field)?;
    if v < table::modulus(field as usize) {
        Ok(())
    } else {
        Err(Refusal::NotBelowP)
    }
}
