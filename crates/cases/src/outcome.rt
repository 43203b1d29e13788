// What a run leaves: the answer, the registers, and both buffers to their last number.
ghost use Rattle.std.specs.Prelude.{◌≡◌, ◌≤◌, length};
ghost use Rattle.cases.specs.Blanks as Blanks;

use machine::run::Answer;
use report::lines;
use report::text::{Spaced, line};

pub fn outcome(answer: Answer, log: &[u32], revealed: &[u32]) {
    let spent = answer.table.spent;
    let cells = answer.table.cells;
    lines::end(refusals::number(&answer.ended), answer.place, spent.counts);
    registers(spent.marks, &cells);
    line(format_args!("rest {}", blanks(spent.marks, &cells)));
    line(format_args!("record{}", Spaced(log)));
    line(format_args!("revealed{}", Spaced(revealed)));
}

// A line for each set register.
fn registers(marks: [bool; 64], cells: &[u32])
    requires { length cells.now ≡ 448 }
{
    for (r, &set) in marks.iter().enumerate() {
        if set {
            let row = Spaced(&cells[7 * r..7 * r + 7]);
            line(format_args!("register {r}{row}"));
        }
    }
}

// 1 for a cell that is 0, of a register that is not set.
#[tactic(auto, unfolding(crate::specs::Blanks::blank))]
fn blank(set: bool, cell: u32) -> usize
    ensures { (result ≡ Blanks.blank set cell) × (result ≤ 1) }
{
    usize::from(!set && cell == 0)
}

// "the cells of an unset register are 0": seven for each, so the number shows that every cell was looked at.
#[tactic(auto, unfolding(crate::specs::Blanks::blanks))]
fn blanks(marks: [bool; 64], cells: &[u32]) -> usize
    requires { length cells.now ≡ 448 }
    ensures { result ≡ Blanks.blanks marks cells.now 448 }
{
    let mut found = 0;
    for (i, &cell) in cells.iter().enumerate() {
        found += blank(marks[i / 7], cell);
    }
    found
}
