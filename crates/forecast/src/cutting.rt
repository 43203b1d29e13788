// How much of an input is taken: of a whole sheet its header and script.
ghost use Rattle.model.specs.Sheet.{header_of};
ghost use Rattle.sheet.specs.Framed.{Headed};
ghost use Rattle.forecast.specs.Taken.{taken, taken_by, Cut};

use sheet::frame::Frame;
use sheet::header;

// How many bytes are taken.
#[tactic(auto, using(crate::proofs::Taking::header_passes, crate::proofs::Taking::header_refused))]
pub fn head_length(input: &[u8]) -> usize
    ensures { Cut input.now (taken input.now) result }
{
    match header::read_header(input) {
        Ok(f) => by_length(input, f),
        Err(_) => input.len(),
    }
}

#[tactic(auto, using(crate::proofs::Taking::whole_sheet, crate::proofs::Taking::other_input))]
fn by_length(input: &[u8], f: Frame) -> usize
    requires { Headed (header_of input.now) f }
    ensures { Cut input.now (taken_by input.now) result }
{
    if sheet::has_implied_length(input, f) {
        f.input
    } else {
        input.len()
    }
}
