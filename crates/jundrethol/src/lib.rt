// The library for C, as include/jundrethol.h declares it. A slice is a pointer and a length to C. Nothing is asked of the numbers or of the
// lengths: a C compiler proves no `requires`.
#![tactic(auto)]

mod lent;

ghost use Rattle.std.specs.Prelude.{◌≡◌};
ghost use Rattle.model.specs.Entries.{share_number, share_left, recover_number, recover_value, recover_left, sum_number, sum_value, encode_number, encode_value, decode_number, decode_value};
ghost use Rattle.model.specs.Run as Run;
ghost use Rattle.model.specs.Calls as Calls;
ghost use Rattle.model.specs.Columns.{column_form, sheet_form, turn_number, output_left};
ghost use Rattle.model.specs.Forecast as Forecast;
ghost use Rattle.model.specs.Replay as Replay;
ghost use Rattle.jundrethol.specs.Lent.{Handed, HandedReplay, as_imported, as_forecast};

use machine::run;
use refusals::number;

// Runs a sheet, with the byte that says who is present. Opened shares go to the log, the header's record. Registers, marks and counts go to lists of any
// length.
#[unsafe(no_mangle)]
pub extern "C" fn jundrethol_run(
    sheet: &[u8],
    present: u8,
    log: &mut [u32],
    revealed: &mut [u32],
    registers: &mut [u32],
    marks: &mut [u8],
    counts: &mut [u64],
) -> u32
    ensures { Handed (Run.run present sheet.now log.old revealed.old) result log.new revealed.new registers.old registers.new marks.old marks.new counts.old counts.new }
{
    let answer = run::run(sheet, present, log, revealed);
    lent::hand(answer, registers, marks, counts);
    number(&answer.ended)
}

// Imports the calls of an exchange's list. How many were written goes to the place that C lends for it.
#[unsafe(no_mangle)]
pub extern "C" fn jundrethol_import(calls: &mut u64, list: &[u8], seconds: &mut [u32]) -> u32
    ensures { as_imported result calls.new seconds.new ≡ Calls.imported list.now seconds.old }
{
    let answer = calls::import(list, seconds);
    *calls = answer.calls as u64;
    number(&answer.ended)
}

// The column form of a sheet, and the sheet of a column form. Both refuse 1, 2, 3, 4, 15.
#[unsafe(no_mangle)]
pub extern "C" fn jundrethol_to_columns(sheet: &[u8], columns: &mut [u8]) -> u32
    ensures { (result ≡ turn_number sheet.now columns.old) × (columns.new ≡ output_left column_form sheet.now columns.old) }
{
    number(&column_form::to_columns(sheet, columns))
}

#[unsafe(no_mangle)]
pub extern "C" fn jundrethol_to_sheet(columns: &[u8], sheet: &mut [u8]) -> u32
    ensures { (result ≡ turn_number columns.now sheet.old) × (sheet.new ≡ output_left sheet_form columns.now sheet.old) }
{
    number(&column_form::to_sheet(columns, sheet))
}

// Whether a run would come to END, by header and script. The place goes to the place that C lends for it. Answers 0, 1 to 4, 9 to 11 or 21 to 24.
#[unsafe(no_mangle)]
pub extern "C" fn jundrethol_forecast(place: &mut u64, head: &[u8]) -> u32
    ensures { as_forecast result place.new ≡ Forecast.forecast head.now }
{
    match forecasting::forecast(head) {
        Ok(end) => {
            *place = end as u64;
            0
        }
        Err(refused) => {
            *place = refused.place as u64;
            u32::from(refused.refusal)
        }
    }
}

// Replays one party's column of a run, from the party's part of the column form and the log, the header's record. Cells and counts go to lists of any
// length. Answers 0, 1 to 5, 9 to 11, 21 to 24 or 41 to 43.
#[unsafe(no_mangle)]
pub extern "C" fn jundrethol_replay(
    party: u32,
    head: &[u8],
    part: &[u8],
    log: &[u32],
    cells: &mut [u32],
    counts: &mut [u64],
) -> u32
    ensures { HandedReplay (Replay.replay party head.now part.now log.now) result cells.old cells.new counts.old counts.new }
{
    let answer = replay::replay(party, head, part, log);
    lent::put_cells(cells, &answer.cells);
    lent::put_counts(counts, answer.place, answer.counts);
    number(&answer.ended)
}

// The small entries follow, each with the contract of the Rattle entry that it calls. A value goes to the place that C lends for it, 0 in a
// refusal.

// Refuses 2, 3, 4, 5.
#[unsafe(no_mangle)]
pub extern "C" fn jundrethol_share(
    field: u32,
    n: u32,
    t: u32,
    secret: u32,
    coefficients: &[u32],
    shares: &mut [u32],
) -> u32
    ensures { (result ≡ share_number field n t secret coefficients.now shares.old) × (shares.new ≡ share_left field n t secret coefficients.now shares.old) }
{
    number(&sharing::share(field, n, t, secret, coefficients, shares))
}

// Refuses 2, 3, 4, 5, 6.
#[unsafe(no_mangle)]
pub extern "C" fn jundrethol_recover(
    field: u32,
    n: u32,
    t: u32,
    secret: &mut u32,
    row: &[u32],
    coefficients: &mut [u32],
) -> u32
    ensures { (result ≡ recover_number field n t row.now coefficients.old) × (secret.new ≡ recover_value field n t row.now coefficients.old) × (coefficients.new ≡ recover_left field n t row.now coefficients.old) }
{
    let answer = sharing::recover(field, n, t, row, coefficients);
    *secret = answer.unwrap_or(0);
    number(&answer)
}

// The sum before reducing. Refuses 2, 3, 4, 5, 6.
#[unsafe(no_mangle)]
pub extern "C" fn jundrethol_sum(field: u32, n: u32, t: u32, sum: &mut u64, row: &[u32]) -> u32
    ensures { (result ≡ sum_number field n t row.now) × (sum.new ≡ sum_value field n t row.now) }
{
    let answer = sharing::sum(field, n, t, row);
    *sum = answer.unwrap_or(0);
    number(&answer)
}

// Refuses 2, 11.
#[unsafe(no_mangle)]
pub extern "C" fn jundrethol_encode(field: u32, k: u32, a: i64, value: &mut u32) -> u32
    ensures { (result ≡ encode_number field k a) × (value.new ≡ encode_value field k a) }
{
    let answer = field::encode(field, k, a);
    *value = answer.unwrap_or(0);
    number(&answer)
}

// Refuses 2, 5.
#[unsafe(no_mangle)]
pub extern "C" fn jundrethol_decode(field: u32, v: u32, a: &mut i64) -> u32
    ensures { (result ≡ decode_number field v) × (a.new ≡ decode_value field v) }
{
    let answer = field::decode(field, v);
    *a = answer.unwrap_or(0);
    number(&answer)
}
