// The run of a sheet.
// What `run` rests on and answers with a table is not inlined, so that the frame of its caller does not hold its tables too.
ghost use Rattle.std.specs.Prelude.{◌≡◌, length};
ghost use Rattle.refusals.specs.Numbers.{number_of};
ghost use Rattle.model.specs.Run as Run;
ghost use Rattle.sheet.specs.Framed.{setting_in};
ghost use Rattle.machine.specs.Answers.{Unrefused, Running, Reaches, RefusedWith, outcome_of};

use crate::step;
use costs::{check, cost, spent};
use refusals::Refusal;
use registers::table::Table;
use script::decode;
use sheet::frame::Frame;

// How the run ended and at which place, and the table that it leaves.
#[derive(Clone, Copy)]
pub struct Answer {
    pub ended: Result<(), Refusal>,
    pub place: usize,
    pub table: Table,
}

// The run of a script that 9 to 11 do not refuse, command by command: each is "tried before a command changes anything", and "a refused one
// ends the run".
#[inline(never)]
fn run_script(f: Frame, s: &[u8], script: &[u8], log: &mut [u32], revealed: &mut [u32]) -> Answer
    requires { Running s.now f script.now }
    ensures { Reaches (setting_in f) log.old revealed.old (Run.stop_of f.opening.present s.now (length log.old) (length revealed.old)) result log.new revealed.new }
{
    let supply = spent::supply(f, log.len(), revealed.len());
    let mut table = Table::new();
    let mut place = 0;
    // The script is one that 9 to 11 do not refuse, so that what ends the loop is END.
    while let Ok(Some(line)) = decode::decode(f.p, f.largest, script, place) {
        let need = cost::cost_of(f, line.command);
        if let Err(refusal) = check::check(table.spent, supply, need) {
            return Answer {
                ended: Err(refusal),
                place,
                table,
            };
        }
        table = step::step(table, f, s, log, revealed, line.command, need);
        place = line.next;
    }
    Answer {
        ended: Ok(()),
        place,
        table,
    }
}

// "Nothing is run": all registers unset, all counts 0.
#[inline(never)]
fn refused(refusal: Refusal, place: usize) -> Answer
    ensures { RefusedWith (number_of refusal) place result }
{
    Answer {
        ended: Err(refusal),
        place,
        table: Table::new(),
    }
}

// The run of a sheet that 1 to 8 and 12 do not refuse: 9 to 11 are tried on its script, which ends where the input rows start.
#[inline(never)]
fn run_sheet(f: Frame, sheet: &[u8], log: &mut [u32], revealed: &mut [u32]) -> Answer
    requires { Unrefused sheet.now f }
    ensures { outcome_of result log.new revealed.new ≡ Run.run f.opening.present sheet.now log.old revealed.old }
{
    let end = f.input;
    let from = end - f.script;
    let script = &sheet[from..end];
    match script::check::check_script(f.p, f.largest, script) {
        Ok(_) => run_script(f, sheet, script, log, revealed),
        Err(found) => refused(found.refusal, found.place),
    }
}

// Runs a sheet, with the byte whose bit j − 1 says that party j is present. Opened shares go to the log, the paper's record, and revealed values to
// the revealed list, each from its start; past what was written they are unchanged.
#[inline(never)]
pub fn run(sheet: &[u8], present: u8, log: &mut [u32], revealed: &mut [u32]) -> Answer
    ensures { outcome_of result log.new revealed.new ≡ Run.run present sheet.now log.old revealed.old }
{
    match sheet::read_sheet(sheet, u32::from(present)) {
        Ok(f) => run_sheet(f, sheet, log, revealed),
        Err(refusal) => refused(refusal, 0),
    }
}
