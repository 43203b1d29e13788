// The lines of a script, gone over by cost, checks and payment alone.
ghost use Rattle.std.specs.Prelude.{◌≡◌, ◌≤◌};
ghost use Rattle.refusals.specs.Numbers.{number_of};
ghost use Rattle.model.specs.Script.{script_of};
ghost use Rattle.model.specs.Forecast as Paper;
ghost use Rattle.script.specs.Meaning.{script_number};
ghost use Rattle.forecasting.specs.Forecasting.{foreseen_of, stopped_of, Foresees};

use costs::counts::Counts;
use costs::spent::Spent;
use costs::{check, cost, spent};
use refusals::Refusal;
use script::decode;
use sheet::frame::Frame;

// How and at which place a run would end, and what it would have spent and set there. What stops a run is a refusal; of `stopped` it is any number.
#[derive(Clone, Copy)]
pub struct Foreseen<E> {
    pub ended: Result<(), E>,
    pub place: usize,
    pub spent: Spent,
}

// Stopped before the first command, whether a refusal has the number or not.
pub fn stopped(number: u32, place: usize) -> Foreseen<u32>
    ensures { stopped_of result ≡ Paper.nothing_foreseen number place }
{
    Foreseen {
        ended: Err(number),
        place,
        spent: spent::nothing(),
    }
}

// Refused before the first command.
pub fn refused(refusal: Refusal, place: usize) -> Foreseen<Refusal>
    ensures { foreseen_of result ≡ Paper.nothing_foreseen (number_of refusal) place }
{
    Foreseen {
        ended: Err(refusal),
        place,
        spent: spent::nothing(),
    }
}

// A script that 9 to 11 do not refuse, command by command: what is "Tried before a command changes anything", and what a finished command spends.
fn over_lines(f: Frame, script: &[u8], supply: Counts) -> Foreseen<Refusal>
    requires { (f.l ≤ 31) × (f.largest ≤ 30) × (script_number (script_of f.p f.largest script.now) ≡ 0) }
    ensures { Foresees f script.now supply result }
{
    let mut spent = spent::nothing();
    let mut at = 0;
    // The script is one that 9 to 11 do not refuse, so that what ends the loop is END.
    while let Ok(Some(line)) = decode::decode(f.p, f.largest, script, at) {
        let need = cost::cost_of(f, line.command);
        if let Err(refusal) = check::check(spent, supply, need) {
            return Foreseen {
                ended: Err(refusal),
                place: at,
                spent,
            };
        }
        spent = spent::pay(spent, need);
        at = line.next;
    }
    Foreseen {
        ended: Ok(()),
        place: at,
        spent,
    }
}

// What the run of a script would come to with such a supply: 9 to 11 are tried on the whole script first.
pub fn foresee_script(f: Frame, script: &[u8], supply: Counts) -> Foreseen<Refusal>
    requires { (f.l ≤ 31) × (f.largest ≤ 30) }
    ensures { Foresees f script.now supply result }
{
    match script::check::check_script(f.p, f.largest, script) {
        Ok(_) => over_lines(f, script, supply),
        Err(found) => refused(found.refusal, found.place),
    }
}
