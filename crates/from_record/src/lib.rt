// One opening read from a record: its numbers are tested, the value is found from them, and the own share is compared.
#![tactic(auto)]

pub mod shown;
pub mod windows;

ghost use Rattle.std.specs.Prelude.{◌≡◌, ◌+◌, ◌-◌, ◌^◌, ◌≤◌, ◌<◌, length, get_or, drop, IfOk};
ghost use Rattle.algebra.specs.Lists as Lists;
ghost use Rattle.model.specs.Fields as Fields;
ghost use Rattle.model.specs.Refusing.{first_failed};
ghost use Rattle.model.specs.Replay as Replay;
ghost use Rattle.refusals.specs.Numbers.{told};
ghost use Rattle.from_record.specs.Windowed.{WindowsOf};
ghost use Rattle.from_record.specs.Reading.{Reading, Finding, FoundIn, own_tests};

use crate::shown::Shown;
use crate::windows::Windows;
use field::table;
use refusals::Refusal;
use secret::Row;

// What a party reads a record with: its table's field, parties and threshold, its own number, and how openings are worked by those who are present at the
// record's first opening. In the record of a run they are present at every opening, so that weights are worked out once.
#[derive(Clone, Copy)]
pub struct Reader {
    pub field: usize,
    pub p: u32,
    pub n: usize,
    pub t: usize,
    pub party: usize,
    pub windows: Windows,
}

pub fn reader_for(field: usize, n: usize, t: usize, party: usize, log: &[u32]) -> Reader
    requires { Fields.InUse field × Fields.Parties n t × (1 ≤ party) × (party ≤ n) }
    ensures { (result.p ≡ Fields.modulus field) × (result.n ≡ n) × (result.t ≡ t) × (result.party ≡ party) × Reading result }
{
    let p = table::modulus(field);
    let windows = windows::windows_of(field, n, t, first_present(p, n, log));
    Reader {
        field,
        p,
        n,
        t,
        party,
        windows,
    }
}

// Who is present at the first opening of a record. A record without one, or with a number above p in it, is refused wherever it is read: nobody will do,
// for whom no weight is worked out.
fn first_present(p: u32, n: usize, log: &[u32]) -> u32
    requires { (0 < p) × (n ≤ 7) }
    ensures { result < 2 ^ n }
{
    if n <= log.len()
        && let Ok(shown) = shown::shown_in(p, n, log, 0)
    {
        return shown.present;
    }
    0
}

// The reader's windows, or those of another set.
fn windows_for(reader: Reader, present: u32) -> Windows
    requires { Reading reader × (present < 2 ^ reader.n) }
    ensures { (result.present ≡ present) × WindowsOf reader.p reader.n reader.t result }
{
    let known = reader.windows;
    if known.present == present {
        known
    } else {
        windows::windows_of(reader.field, reader.n, reader.t, present)
    }
}

// "fewer than t + 1 shares are present, or those present are not on one polynomial of degree at most t": 42, or the value.
fn value_of(reader: Reader, shown: Shown) -> Result<u32, Refusal>
    requires { Reading reader × (shown.present < 2 ^ reader.n) × Lists.Below reader.p shown.shares }
    ensures { Finding reader.p reader.n reader.t shown result }
{
    let windows = windows_for(reader, shown.present);
    let shares = shown.shares;
    match windows::value_of_all(reader.p, reader.n, reader.t, windows, Row { shares }) {
        Ok(value) => Ok(value),
        Err(_) => Err(Refusal::BadOpening),
    }
}

// Before these "a number is above p": 42 too.
fn value_in(reader: Reader, log: &[u32], at: usize) -> Result<u32, Refusal>
    requires { Reading reader × (at + reader.n ≤ length log.now) }
    ensures { FoundIn reader.p reader.n reader.t (drop at log.now) result }
{
    let shown = shown::shown_in(reader.p, reader.n, log, at)?;
    value_of(reader, shown)
}

// "then 41 the own share differs"; "an absent own share is not compared".
#[tactic(auto, unfolding(model::specs::Refusing::first_failed))]
fn compare_own(reader: Reader, log: &[u32], at: usize, own: u32) -> Result<(), Refusal>
    requires { Reading reader × (at + reader.n ≤ length log.now) }
    ensures { told result ≡ first_failed (own_tests reader.p own (get_or log.now (at + (reader.party - 1)) 0)) }
{
    let share = log[at + (reader.party - 1)];
    if share != reader.p && share != own {
        return Err(Refusal::OwnShareDiffers);
    }
    Ok(())
}

// The value of the opening from a place of the record on.
#[tactic(auto, using(crate::proofs::Values::too_short, crate::proofs::Values::refused_number, crate::proofs::Values::own_compared))]
pub fn open_next(reader: Reader, log: &[u32], at: usize, own: u32) -> Result<u32, Refusal>
    requires { Reading reader × (at ≤ length log.now) }
    ensures number { told result ≡ Replay.opening_number reader.p reader.n reader.t reader.party own (drop at log.now) }
    ensures value { IfOk result (λ v. (v ≡ Replay.opened_value reader.p reader.n reader.t (Replay.opening reader.p reader.n reader.t (drop at log.now))) × (v < reader.p)) }
{
    if log.len() - at < reader.n {
        return Err(Refusal::RecordShort);
    }
    let value = value_in(reader, log, at)?;
    compare_own(reader, log, at, own)?;
    Ok(value)
}
