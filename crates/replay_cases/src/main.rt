// Replays the cases of standard input, and prints all that each replay yields. A case is, as reference/src/replay/case.rs has it, four words of 4
// bytes, little-endian: the party, the lengths of head and part, and how many numbers the record has; then head, part, and the record's numbers, a word
// each.
#![tactic(auto)]

ghost use Rattle.std.specs.Prelude.{◌*◌, ◌≤◌, length};

use replay::Answer;
use report::lines;
use report::text::{Spaced, line};

// The longest head, part and record.
const HEAD: usize = 2000;

const PART: usize = 9000;

const NUMBERS: usize = 12000;

// Room for head, part and record one after the other, with 4 bytes for each number of the record.
const ROOM: usize = HEAD + PART + 4 * NUMBERS;

// Case by case, so that no list has to take them all; at most 100,000.
fn main() {
    for _ in 0..100000 {
        if !replay_case() {
            return;
        }
    }
}

// Whether a case was read and replayed: not where bytes are missing or a length is too large.
fn replay_case() -> bool {
    let mut start = [0u8; 16];
    if io::read_full(0, &mut start) < 16 {
        return false;
    }
    let party = words::word(&start, 0);
    let head = words::word(&start, 4) as usize;
    let part = words::word(&start, 8) as usize;
    let numbers = words::word(&start, 12) as usize;
    if head > HEAD || part > PART || numbers > NUMBERS {
        return false;
    }
    let mut room = [0u8; ROOM];
    let size = head + part + 4 * numbers;
    let lists = &mut room[..size];
    if io::read_full(0, lists) < size {
        return false;
    }
    let (head, rest) = lists.split_at(head);
    let (part, rest) = rest.split_at(part);
    replay_lists(party, head, part, numbers, rest);
    true
}

// Lends the record, each number from 4 bytes.
fn replay_lists(party: u32, head: &[u8], part: &[u8], numbers: usize, s: &[u8])
    requires { (numbers ≤ 12000) × (4 * numbers ≤ length s.now) }
{
    let mut log = [0u32; NUMBERS];
    let log = &mut log[..numbers];
    for (i, x) in log.iter_mut().enumerate() {
        *x = words::word(s, 4 * i);
    }
    outcome(replay::replay(party, head, part, log));
}

// What a replay yields: the end, how many values were revealed, and all cells.
fn outcome(answer: Answer) {
    lines::end(refusals::number(&answer.ended), answer.place, answer.counts);
    line(format_args!("revealed {}", answer.counts.revealed));
    line(format_args!("cells{}", Spaced(&answer.cells[..])));
}
