// The lines of a script on one party's column.
ghost use Rattle.std.specs.Prelude.{◌≡◌, length};
ghost use Rattle.replay.specs.Lines.{Prepared, ended_of, lines_replayed};

use column_commands::own::Own;
use column_commands::perform;
use costs::{check, cost, spent};
use refusals::Refusal;
use registers::table::Table;
use script::decode;
use sheet::frame::Frame;

// "a record of 10,850 numbers (7 shares of at most 1,024 + 16 + 510 openings) and a revealed list of 511, which no run outgrows": with these the checks 25
// and 26 never refuse.
const RECORD_LENGTH: usize = 10850;

const REVEALED_LENGTH: usize = 511;

// How and at which place a replay stops, and the table of one column after the last finished command.
#[derive(Clone, Copy)]
pub struct Stopped {
    pub ended: Result<(), Refusal>,
    pub place: usize,
    pub table: Table,
}

// A script that 9 to 11 do not refuse, command by command: "Before each command it tries 21 to 24", and a refusal inside a command leaves the table before it.
pub fn replay_lines(own: Own, f: Frame, script: &[u8], part: &[u8], log: &[u32]) -> Stopped
    requires { Prepared own f script.now part.now }
    ensures { ended_of result ≡ lines_replayed own f script.now part.now log.now }
{
    let supply = spent::supply(f, RECORD_LENGTH, REVEALED_LENGTH);
    let mut table = Table::new();
    let mut place = 0;
    // The script is one that 9 to 11 do not refuse, so that what ends the loop is END.
    while let Ok(Some(line)) = decode::decode(f.p, f.largest, script, place) {
        let need = cost::cost_of(f, line.command);
        if let Err(refusal) = check::check(table.spent, supply, need) {
            return Stopped {
                ended: Err(refusal),
                place,
                table,
            };
        }
        match perform::perform(table, own, part, log, line.command) {
            Ok(done) => table = done.paid(need),
            Err(refusal) => {
                return Stopped {
                    ended: Err(refusal),
                    place,
                    table,
                };
            }
        }
        place = line.next;
    }
    Stopped {
        ended: Ok(()),
        place,
        table,
    }
}
