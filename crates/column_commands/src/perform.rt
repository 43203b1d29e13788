// What each command does to the table of one column.
ghost use Rattle.costs.specs.Costing.{counts_of};
ghost use Rattle.script.specs.Meaning.{meant};
ghost use Rattle.column_commands.specs.Does.{Ready, Does};

use crate::own::Own;
use crate::{opening, own, signs};
use cuts::cut::Cut;
use refusals::Refusal;
use registers::table::Table;
use script::command::Command;

// A refusal inside a command leaves the caller's table as it was: this one is handed on by value.
pub fn perform(
    table: Table,
    own: Own,
    part: &[u8],
    log: &[u32],
    command: Command,
) -> Result<Table, Refusal>
    requires { Ready own part.now log.now (counts_of table.spent.counts) (meant command) }
    ensures { Does own part.now log.now (counts_of table.spent.counts) (meant command) table result }
{
    let c = own.column;
    let s = c.setting;
    let at = own::ahead_of(own, table.spent.counts);
    match command {
        Command::Load { d } => Ok(own::load(table, part, d)),
        Command::Const { d, v } => Ok(table.fill(s, d, v)),
        Command::Add { d, a, b } => Ok(table.add(s, d, a, b)),
        Command::Sub { d, a, b } => Ok(table.sub(s, d, a, b)),
        Command::Scale { d, a, v } => Ok(table.scale(s, d, a, v)),
        Command::Mul { d, a, b } => opening::multiply(table, c, at, part, log, d, a, b),
        Command::Mod { d, a, k, m } => opening::cut(
            table,
            c,
            at,
            part,
            log,
            d,
            a,
            Cut::Mod { k, m },
        ),
        Command::Trunc { d, a, k, m } => opening::cut(
            table,
            c,
            at,
            part,
            log,
            d,
            a,
            Cut::Trunc { k, m },
        ),
        Command::Ltz { d, a, k } => opening::cut(table, c, at, part, log, d, a, Cut::Ltz { k }),
        Command::Over { d, a, k, v } => opening::cut(
            table,
            c,
            at,
            part,
            log,
            d,
            a,
            Cut::Over { k, v },
        ),
        Command::Blocks { d, a, k, m } => opening::cut(
            table,
            c,
            at,
            part,
            log,
            d,
            a,
            Cut::Blocks { k, m },
        ),
        Command::Reveal { a } => opening::revealed(table, c, at, log, a),
        Command::Bitlt { d, b, w, v } => opening::compare(table, c, at, part, log, d, b, w, v),
        Command::Ltzs { d, a, h, k } => signs::signs(table, c, at, part, log, d, a, h, k),
    }
}
