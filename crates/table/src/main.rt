// Runs the sheet on standard input, and prints the paper's lines of the run.
#![tactic(auto)]

ghost use Rattle.std.specs.Prelude.{◌≡◌, ◌*◌, ◌≤◌, ◌<◌, length};
ghost use Rattle.model.specs.Sheet as Sheet;
ghost use Rattle.model.specs.Refusals.{is_run};
ghost use Rattle.model.specs.Buffers.{record_length, revealed_length};
ghost use Rattle.figures.specs.Largest.{largest_sheet};
ghost use Rattle.machine.specs.Answers.{outcome_of};
ghost use Rattle.table.specs.Ample.{Everyone, Ample};

use costs::counts::Counts;
use machine::run;
use machine::run::Answer;
use report::lines;
use report::text::line;
use sheet::header;

// One byte more than the largest sheet has.
const BYTES_READ: usize = 59724;

// "a record of 10,850 numbers (7 shares of at most 1,024 + 16 + 510 openings) and a revealed list of 511, which no run outgrows"
const RECORD_LENGTH: usize = 10850;

const REVEALED_LENGTH: usize = 511;

const MOST_PARTIES: u8 = 7;

fn main() {
    let mut input = [0u8; BYTES_READ];
    let got = io::read_full(0, &mut input);
    run_read(&input, got);
}

// The bytes that were read. An input that is longer than what is read is longer than the largest sheet too, so that its first bytes have the whole
// input's answer: `cut` in crates/figures/specs/Largest.antt.
fn run_read(input: &[u8], got: usize)
    requires { (largest_sheet < length input.now) × (got ≤ length input.now) }
{
    run_sheet(&input[..got]);
}

fn run_sheet(s: &[u8]) {
    let mut log = [0u32; RECORD_LENGTH];
    let mut revealed = [0u32; REVEALED_LENGTH];
    run_lent(s, &mut log, &mut revealed);
}

fn run_lent(s: &[u8], log: &mut [u32], revealed: &mut [u32])
    requires { (record_length ≤ length log.old) × (revealed_length ≤ length revealed.old) }
{
    let answer = run_ample(s, log, revealed);
    let spent = answer.table.spent;
    let number = refusals::number(&answer.ended);
    if is_run(number) {
        run_lines(s, spent.counts, log, revealed);
    }
    lines::end(number, answer.place, spent.counts);
}

// "Program `table` takes everyone as present": the byte for the header's n. Where there is no such n, 1, 2 or 3 refuses, whatever the byte is.
fn everyone(s: &[u8]) -> u8
    ensures { Everyone s.now result }
{
    if s.len() < 2 || s[1] > MOST_PARTIES {
        return 0;
    }
    presence::everyone(usize::from(s[1]))
}

// The run with buffers that none outgrows.
fn run_ample(s: &[u8], log: &mut [u32], revealed: &mut [u32]) -> Answer
    requires { (record_length ≤ length log.old) × (revealed_length ≤ length revealed.old) }
    ensures { Ample s.now log.old revealed.old (outcome_of result log.new revealed.new) }
{
    run::run(s, everyone(s), log, revealed)
}

// Whether the sheet is run. "When the input is refused only the last line is printed."
#[tactic(auto, unfolding(model::specs::Refusals::is_run))]
fn is_run(number: u32) -> bool
    ensures { result ≡ is_run number }
{
    number == 0 || number >= 21
}

// The lines before the last of a sheet that is run, which has a header.
fn run_lines(s: &[u8], spent: Counts, log: &[u32], revealed: &[u32])
    requires { (spent.openings * (Sheet.header_of s.now).n ≤ length log.now) × (spent.revealed ≤ length revealed.now) }
{
    let Ok(f) = header::read_header(s) else {
        return;
    };
    line(format_args!("field {} parties {} threshold {}", f.p, f.n, f.t));
    lines::opened(f.n, spent.openings, log);
    lines::revealed(u32::from(s[0]), spent.revealed, revealed);
}
