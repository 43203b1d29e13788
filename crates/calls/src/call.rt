// How long a call lasted: "ended minus answered, or 0 for no answer".
ghost use Rattle.std.specs.Prelude.{◌≡◌};
ghost use Rattle.model.specs.Calls as Calls;
ghost use Rattle.calls.specs.Meaning.{time_of, call_of};

use crate::time::Time;

// The seconds of the call with these times, where they are good: only the answered one may be absent.
#[tactic(auto, using(crate::proofs::Lasting::order_tests), unfolding(model::specs::Calls::lasting))]
pub fn call_between(dialled: Time, answered: Time, ended: Time) -> Option<u32>
    ensures { call_of result ≡ Calls.with_time (time_of dialled) (λ d. Calls.with_time (time_of ended) (λ e. Calls.lasting d (time_of answered) e)) }
{
    match (dialled, answered, ended) {
        (Time::At(dialled), Time::At(answered), Time::At(ended))
            if dialled <= answered && answered <= ended => Some(ended - answered),
        (Time::At(dialled), Time::Absent, Time::At(ended)) if dialled <= ended => Some(0),
        _ => None,
    }
}
