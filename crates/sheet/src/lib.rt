// The sheet: its header, where its parts stand, and the refusals 1 to 8 and 12.
#![tactic(auto)]

pub mod deal;
pub mod frame;
pub mod header;
pub mod rows;

ghost use Rattle.std.specs.Prelude.{◌≡◌, ◌++◌, eqb, length};
ghost use Rattle.model.specs.Refusing.{first_failed};
ghost use Rattle.model.specs.Sheet as Sheet;
ghost use Rattle.presence.specs.Openings.{WorkedBy};
ghost use Rattle.refusals.specs.Numbers.{told};
ghost use Rattle.sheet.specs.Framed.{setting_in, inputs_of, deal_of, Headed, Whole, RunFramed};
ghost use Rattle.sheet.specs.Reading.{Reads};

use crate::frame::Frame;
use refusals::Refusal;

// The frame of a sheet for a run with these parties present, or what refuses it, 1 to 8 or 12.
pub fn read_sheet(s: &[u8], present: u32) -> Result<Frame, Refusal>
    ensures { Reads (Sheet.sheet_tests present s.now) (RunFramed present s.now) result }
{
    let f = header::read_run_header(s, present)?;
    check_body(s, f)?;
    Ok(f)
}

// The length that the header of a sheet implies.
#[tactic(auto, using(crate::proofs::Headers::end_is, crate::proofs::Headers::end_most))]
pub fn implied_length(s: &[u8], f: Frame) -> usize
    requires { Headed (Sheet.header_of s.now) f }
    ensures { result ≡ Sheet.implied_length (Sheet.header_of s.now) }
{
    f.triple + 4 * f.n * 3 * f.triples
}

// Whether the sheet is as long as its header implies.
pub fn has_implied_length(s: &[u8], f: Frame) -> bool
    requires { Headed (Sheet.header_of s.now) f }
    ensures { result ≡ eqb (length s.now) (Sheet.implied_length (Sheet.header_of s.now)) }
{
    s.len() == implied_length(s, f)
}

// 4 for the sheet's length, then 5 to 8.
#[tactic(auto, using(model::proofs::Trying::trying, crate::proofs::Answers::whole), unfolding(model::specs::Sheet::length_tests))]
fn check_body(s: &[u8], f: Frame) -> Result<(), Refusal>
    requires { Headed (Sheet.header_of s.now) f × WorkedBy f.p f.n f.t f.opening }
    ensures { told result ≡ first_failed (Sheet.length_tests (Sheet.header_of s.now) s.now ++ Sheet.row_tests (setting_in f) (inputs_of s.now f) (deal_of s.now f)) }
{
    if !has_implied_length(s, f) {
        return Err(Refusal::BadLength);
    }
    check_rows(s, f)
}

// 5 to 8: "each over the whole sheet before the next".
#[tactic(auto, using(model::proofs::Trying::trying, crate::proofs::Headers::modulus_in, crate::proofs::Headers::row_count, crate::proofs::Answers::rows_told, crate::proofs::Answers::rows_within), unfolding(model::specs::Sheet::row_tests))]
fn check_rows(s: &[u8], f: Frame) -> Result<(), Refusal>
    requires { Headed (Sheet.header_of s.now) f × WorkedBy f.p f.n f.t f.opening × Whole s.now f }
    ensures { told result ≡ first_failed (Sheet.row_tests (setting_in f) (inputs_of s.now f) (deal_of s.now f)) }
{
    let setting = f.setting();
    let count = f.rows();
    if !rows::all_below(f.p, f.n, s, f.input, count) {
        return Err(Refusal::NotBelowP);
    }
    if !rows::all_sharings(f.p, f.n, f.t, s, f.input, count) {
        return Err(Refusal::NoSharing);
    }
    if !deal::good_masks(setting, s, f.mask, f.masks) {
        return Err(Refusal::BadMask);
    }
    if !deal::good_triples(setting, s, f.triple, f.triples) {
        return Err(Refusal::BadTriple);
    }
    Ok(())
}
