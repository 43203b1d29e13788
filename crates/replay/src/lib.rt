// Request 8: a party replays its own column, "from party number, header, script, that party's part of the column form, and the record".
#![tactic(auto)]

pub mod lines;
pub mod own;

ghost use Rattle.std.specs.Prelude.{◌≡◌};
ghost use Rattle.refusals.specs.Numbers.{number_of};
ghost use Rattle.model.specs.Sheet.{header_of};
ghost use Rattle.model.specs.Replay as Replay;
ghost use Rattle.model.specs.Replays.{ReplayReady};
ghost use Rattle.sheet.specs.Framed.{Headed};
ghost use Rattle.sheet.specs.Reading.{Reads};
ghost use Rattle.replay.specs.Lines.{ended_of};
ghost use Rattle.replay.specs.Answers.{answer_of};

use costs::counts;
use costs::counts::Counts;
use lines::Stopped;
use refusals::Refusal;
use sheet::frame::Frame;
use sheet::header;

// How the replay ended and at which place; "It yields the 64 cells and the counts".
#[derive(Clone, Copy)]
pub struct Answer {
    pub ended: Result<(), Refusal>,
    pub place: usize,
    pub cells: [u32; 64],
    pub counts: Counts,
}

// Replays a party's column. The head is header with script, the part its part of the column form, and the log the paper's record: what a run wrote there,
// followed by anything. Before the run it tries 1, 2, 3, 4, 5 and 9 to 11; before each command 21 to 24; at each opening 43, 42, 41.
pub fn replay(party: u32, head: &[u8], part: &[u8], log: &[u32]) -> Answer
    ensures { answer_of result ≡ Replay.replay party head.now part.now log.now }
{
    match head_frame(party, head, part) {
        Ok(f) => by_script(party, head, part, log, f),
        Err(refusal) => nothing(refusal, 0),
    }
}

// The frame of a head and a part for which none of 1 to 5 refuses: 3 "also covers a party number not from 1 to n", "4 counts and the length of header with
// script or of the column part, and 5 the own shares".
fn head_frame(party: u32, head: &[u8], part: &[u8]) -> Result<Frame, Refusal>
    ensures { Reads (Replay.replay_tests party head.now part.now) (Headed (header_of head.now)) result }
{
    let h = header::checked_numbers(head)?;
    if party < 1 || h.n < party {
        return Err(Refusal::BadParties);
    }
    let f = header::read_header(head)?;
    if head.len() != f.input {
        return Err(Refusal::BadLength);
    }
    let rows = f.rows();
    if part.len() != 4 * rows {
        return Err(Refusal::BadLength);
    }
    if !sheet::rows::all_below(f.p, 1, part, 0, rows) {
        return Err(Refusal::NotBelowP);
    }
    Ok(f)
}

// 9 to 11, tried on the whole script, which ends where a sheet's input rows start; then its lines, for the field that a header's first byte names.
fn by_script(party: u32, head: &[u8], part: &[u8], log: &[u32], f: Frame) -> Answer
    requires { ReplayReady party head.now part.now × Headed (header_of head.now) f }
    ensures { answer_of result ≡ Replay.replay party head.now part.now log.now }
{
    let end = f.input;
    let from = end - f.script;
    let script = &head[from..end];
    if let Err(found) = script::check::check_script(f.p, f.largest, script) {
        return nothing(found.refusal, found.place);
    }
    let field = usize::from(head[0]);
    let own = own::own_of(f, field, party as usize, log);
    answered(lines::replay_lines(own, f, script, part, log))
}

// The cells and the counts that the lines left.
fn answered(stopped: Stopped) -> Answer
    ensures { answer_of result ≡ Replay.replayed_by (ended_of stopped) }
{
    Answer {
        ended: stopped.ended,
        place: stopped.place,
        cells: own::own_cells(stopped.table.cells),
        counts: stopped.table.spent.counts,
    }
}

// "Those leave all cells and counts 0."
fn nothing(refusal: Refusal, place: usize) -> Answer
    ensures { answer_of result ≡ Replay.nothing_replayed (number_of refusal) place }
{
    Answer {
        ended: Err(refusal),
        place,
        cells: [0u32; 64],
        counts: counts::none(),
    }
}
