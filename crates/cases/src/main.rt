// Runs the cases of standard input, and prints all that each run leaves. A case is, as reference/src/run_case.rs has it, three words of 4 bytes,
// little-endian, the lengths of the sheet, the record and the revealed list; then the byte that says who is present, and the sheet.
#![tactic(auto)]

mod outcome;

ghost use Rattle.std.specs.Prelude.{◌≤◌};

use machine::run;
use outcome::outcome;

// The longest sheet, and the longest lists that are lent.
const SHEET: usize = 60000;

const LOG: usize = 12000;

const REVEALED: usize = 600;

// Case by case, so that no list has to take them all; at most 100,000.
fn main() {
    for _ in 0..100000 {
        if !run_case() {
            return;
        }
    }
}

// Whether a case was read and run: not where bytes are missing or a length is too large.
fn run_case() -> bool {
    let mut head = [0u8; 13];
    if io::read_full(0, &mut head) < 13 {
        return false;
    }
    let size = words::word(&head, 0) as usize;
    let n = words::word(&head, 4) as usize;
    let m = words::word(&head, 8) as usize;
    if size > SHEET || n > LOG || m > REVEALED {
        return false;
    }
    let mut room = [0u8; SHEET];
    let sheet = &mut room[..size];
    if io::read_full(0, sheet) < size {
        return false;
    }
    run_sheet(sheet, head[12], n, m);
    true
}

// Lends a record of n numbers and a revealed list of m, each 7777777.
fn run_sheet(s: &[u8], present: u8, n: usize, m: usize)
    requires { (n ≤ 12000) × (m ≤ 600) }
{
    let mut log = [7777777u32; LOG];
    let log = &mut log[..n];
    let mut revealed = [7777777u32; REVEALED];
    let revealed = &mut revealed[..m];
    let answer = run::run(s, present, log, revealed);
    outcome(answer, log, revealed);
}
