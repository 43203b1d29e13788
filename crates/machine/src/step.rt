// One command that the checks let through: performed and paid.
ghost use Rattle.std.specs.Prelude.{◌≡◌};
ghost use Rattle.script.specs.Meaning.{meant};
ghost use Rattle.costs.specs.Costing.{counts_of};
ghost use Rattle.registers.specs.Holding.{lent, Ready, Performs};
ghost use Rattle.machine.specs.Answers.{Payable, Finishes};

use costs::cost::Cost;
use cuts::cut::Cut;
use registers::table::{Table, places_of};
use script::command::Command;
use sheet::frame::Frame;

// The command performed. What was spent before it gives the next places of mask, triple and record.
fn perform(
    table: Table,
    f: Frame,
    s: &[u8],
    log: &mut [u32],
    revealed: &mut [u32],
    c: Command,
) -> Table
    requires { Ready s.now f (counts_of table.spent.counts) (meant c) (lent table.cells log.old revealed.old) }
    ensures { (result.spent ≡ table.spent) × Performs s.now f (counts_of table.spent.counts) (meant c) (lent table.cells log.old revealed.old) (lent result.cells log.new revealed.new) }
{
    let setting = f.setting();
    let spent = table.spent.counts;
    let at = places_of(f, spent);
    match c {
        Command::Load { d } => table.load(f, s, d),
        Command::Const { d, v } => table.fill(setting, d, v),
        Command::Add { d, a, b } => table.add(setting, d, a, b),
        Command::Sub { d, a, b } => table.sub(setting, d, a, b),
        Command::Scale { d, a, v } => table.scale(setting, d, a, v),
        Command::Mul { d, a, b } => table.multiply(setting, at, s, log, d, a, b),
        Command::Mod { d, a, k, m } => table.cut(setting, at, s, log, d, a, Cut::Mod { k, m }),
        Command::Trunc { d, a, k, m } => table.cut(setting, at, s, log, d, a, Cut::Trunc { k, m }),
        Command::Ltz { d, a, k } => table.cut(setting, at, s, log, d, a, Cut::Ltz { k }),
        Command::Over { d, a, k, v } => table.cut(setting, at, s, log, d, a, Cut::Over { k, v }),
        Command::Blocks { d, a, k, m } => table.cut(
            setting,
            at,
            s,
            log,
            d,
            a,
            Cut::Blocks { k, m },
        ),
        Command::Reveal { a } => table.reveal(setting, at, log, revealed, a),
        Command::Bitlt { d, b, w, v } => table.compare(setting, at, s, log, d, b, w, v),
        Command::Ltzs { d, a, h, k } => table.signs(f, s, log, d, a, h, k),
    }
}

// Performed, and its cost, which is need, paid.
pub fn step(
    table: Table,
    f: Frame,
    s: &[u8],
    log: &mut [u32],
    revealed: &mut [u32],
    c: Command,
    need: Cost,
) -> Table
    requires { Ready s.now f (counts_of table.spent.counts) (meant c) (lent table.cells log.old revealed.old) × Payable f (meant c) need table }
    ensures { Finishes s.now f (meant c) table log.old revealed.old result log.new revealed.new }
{
    let done = perform(table, f, s, log, revealed, c);
    done.paid(need)
}
