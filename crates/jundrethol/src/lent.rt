// Answers to lists that C lends: as many numbers as the list has places for, and past them it is unchanged.
ghost use Rattle.std.specs.Prelude.{◌≡◌, ◌∷◌, ◌++◌, length, take, drop};
ghost use Rattle.model.specs.Counts.{listed};
ghost use Rattle.costs.specs.Costing.{counts_of};
ghost use Rattle.jundrethol.specs.Lent.{lent, flags, Delivered};

use costs::counts::Counts;
use machine::run::Answer;

// The values go to the start of the part.
fn put<T: Copy>(part: &mut [T], values: &[T])
    ensures { part.new ≡ take (length part.old) values.now ++ drop (length (take (length part.old) values.now)) part.old }
{
    let count = values.len().min(part.len());
    part[..count].copy_from_slice(&values[..count]);
}

// A run's cells, of which register r has those from 7r on, and a replay's, one for each register.
#[tactic(auto, unfolding(crate::specs::Lent::lent, algebra::specs::Lists::onto))]
pub fn put_cells(part: &mut [u32], cells: &[u32])
    ensures { part.new ≡ lent cells.now part.old }
{
    put(part, cells);
}

pub fn put_marks(part: &mut [u8], marks: [bool; 64])
    ensures { part.new ≡ lent (flags marks) part.old }
{
    put(part, &marks.map(|set| u8::from(set)));
}

// The place, and the counts in their order.
#[tactic(auto, unfolding(crate::specs::Lent::lent, algebra::specs::Lists::onto))]
pub fn put_counts(part: &mut [u64], place: usize, spent: Counts)
    ensures { part.new ≡ lent (place ∷ listed (counts_of spent)) part.old }
{
    let counts = [
        place as u64,
        spent.inputs as u64,
        spent.masks as u64,
        spent.triples as u64,
        spent.openings as u64,
        spent.revealed as u64,
    ];
    put(part, &counts);
}

// Registers, marks, place and counts of an answer. Not inlined, so that the frame of the function for C does not hold a copy of the answer.
#[inline(never)]
pub fn hand(answer: Answer, registers: &mut [u32], marks: &mut [u8], counts: &mut [u64])
    ensures { Delivered answer registers.old registers.new marks.old marks.new counts.old counts.new }
{
    let cells = answer.table.cells;
    put_cells(registers, &cells[..]);
    let spent = answer.table.spent;
    let set = spent.marks;
    put_marks(marks, set);
    put_counts(counts, answer.place, spent.counts);
}
