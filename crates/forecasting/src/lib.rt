// What a run would come to, "From header and script alone": no row and no share is looked at.
#![tactic(auto)]

pub mod lines;

ghost use Rattle.std.specs.Prelude.{◌≡◌};
ghost use Rattle.model.specs.Sheet.{header_of};
ghost use Rattle.model.specs.Forecast as Paper;
ghost use Rattle.sheet.specs.Framed.{Headed};
ghost use Rattle.forecasting.specs.Forecasting.{answer_of, foreseen_of, by_length};

use costs::spent;
use lines::Foreseen;
use refusals::{Refusal, Refused};
use sheet::frame::Frame;
use sheet::header;

// "a record of 10,850 numbers (7 shares of at most 1,024 + 16 + 510 openings) and a revealed list of 511, which no run outgrows"
const RECORD_LENGTH: usize = 10850;

const REVEALED_LENGTH: usize = 511;

// Whether a run would come to END, by header and script: END's offset, or 1 to 4, 9 to 11 or 21 to 24 with its place.
pub fn forecast(head: &[u8]) -> Result<usize, Refused>
    ensures { answer_of result ≡ Paper.forecast head.now }
{
    let found = foresee(head);
    match found.ended {
        Ok(()) => Ok(found.place),
        Err(refusal) => Err(Refused {
            refusal,
            place: found.place,
        }),
    }
}

// The same, with what the commands before the place spend and set.
pub fn foresee(head: &[u8]) -> Foreseen<Refusal>
    ensures { foreseen_of result ≡ Paper.foreseen head.now }
{
    match header::read_header(head) {
        Ok(f) => by_length(head, f),
        Err(refusal) => lines::refused(refusal, 0),
    }
}

// 4 where the input is not "exactly the header and the script length that it names"; else by the script, which ends where a sheet's input rows start.
fn by_length(head: &[u8], f: Frame) -> Foreseen<Refusal>
    requires { Headed (header_of head.now) f }
    ensures { foreseen_of result ≡ by_length head.now }
{
    let end = f.input;
    if head.len() == end {
        let from = end - f.script;
        let supply = spent::supply(f, RECORD_LENGTH, REVEALED_LENGTH);
        lines::foresee_script(f, &head[from..end], supply)
    } else {
        lines::refused(Refusal::BadLength, 0)
    }
}
