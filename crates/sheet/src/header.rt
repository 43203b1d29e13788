// The header: its numbers, the refusals 1 to 3, 12, and that of its counts, and the frame that it gives.
ghost use Rattle.std.specs.Prelude.{◌≡◌, ◌++◌, ◌≤◌, length};
ghost use Rattle.model.specs.Sheet as Sheet;
ghost use Rattle.model.specs.Fields as Fields;
ghost use Rattle.model.specs.Presence.{PermittedSet, permitted_set};
ghost use Rattle.sheet.specs.Framed.{Headed, Presented, RunHeaded};
ghost use Rattle.sheet.specs.Reading.{numbers_of, Reads, run_tests};

use crate::frame::Frame;
use field::table;
use refusals::Refusal;

// "That header is 11 bytes."
const HEADER_SIZE: usize = 11;

// The numbers of the header's bytes, as they stand.
#[derive(Clone, Copy)]
pub struct Header {
    pub field: u32,
    pub n: u32,
    pub t: u32,
    pub inputs: usize,
    pub masks: usize,
    pub triples: usize,
    pub script: usize,
}

#[tactic(auto, using(crate::proofs::Headers::header_is))]
pub fn read_numbers(s: &[u8]) -> Header
    requires { 11 ≤ length s.now }
    ensures { numbers_of result ≡ Sheet.header_of s.now }
{
    Header {
        field: u32::from(s[0]),
        n: u32::from(s[1]),
        t: u32::from(s[2]),
        inputs: words::half_word(s, 3) as usize,
        masks: words::half_word(s, 5) as usize,
        triples: words::half_word(s, 7) as usize,
        script: words::half_word(s, 9) as usize,
    }
}

// The numbers of a sheet's header, or 1, 2 or 3.
#[tactic(auto, using(crate::proofs::Answers::too_short, crate::proofs::Answers::setting_read))]
pub fn checked_numbers(s: &[u8]) -> Result<Header, Refusal>
    ensures { Reads (Sheet.header_tests s.now) (λ h. numbers_of h ≡ Sheet.header_of s.now) result }
{
    if s.len() < HEADER_SIZE {
        return Err(Refusal::NoHeader);
    }
    let h = read_numbers(s);
    sharing::check_setting(h.field, h.n, h.t)?;
    Ok(h)
}

// "input rows (at most 64), masks (at most 16), triples (at most 512), script length (at most 1,024)"
#[tactic(auto, unfolding(model::specs::Sheet::limits))]
fn within_limits(h: Header) -> bool
    ensures { result ≡ Sheet.limits (numbers_of h) }
{
    h.inputs <= 64 && h.masks <= 16 && h.triples <= 512 && h.script <= 1024
}

// Whether 12 does not refuse: no bit beyond n is set, and at least t + 1 parties are present.
fn may_run(h: Header, present: u32) -> bool
    requires { Fields.Parties (numbers_of h).n (numbers_of h).t }
    ensures { result ≡ permitted_set (numbers_of h).n (numbers_of h).t present }
{
    presence::permitted(h.n as usize, h.t as usize, present)
}

// The frame of a header.
#[tactic(auto, using(model::proofs::Fields::below_four))]
fn frame_of(h: Header) -> Frame
    requires { Sheet.Permitted (numbers_of h) }
    ensures { Headed (numbers_of h) result }
{
    let field = h.field as usize;
    let l = table::bits(field) as usize;
    let n = h.n as usize;
    let input = HEADER_SIZE + h.script;
    let mask = input + 4 * n * h.inputs;
    let triple = mask + 4 * n * l * h.masks;
    Frame {
        p: table::modulus(field),
        l,
        largest: table::largest_k(field),
        n,
        t: h.t as usize,
        inputs: h.inputs,
        masks: h.masks,
        triples: h.triples,
        script: h.script,
        input,
        mask,
        triple,
        opening: presence::no_opening(),
    }
}

// The frame of a header for a run with these parties present.
fn run_frame_of(h: Header, present: u32) -> Frame
    requires { Sheet.Permitted (numbers_of h) × PermittedSet (numbers_of h).n (numbers_of h).t present }
    ensures { Headed (numbers_of h) result × Presented present result }
{
    let opening = presence::opening_of(h.field as usize, h.n as usize, h.t as usize, present);
    Frame {
        opening,
        ..frame_of(h)
    }
}

// The frame of a sheet's header for a run with these parties present, or 1, 2, 3, 12, or 4 for a count.
pub fn read_run_header(s: &[u8], present: u32) -> Result<Frame, Refusal>
    ensures { Reads (run_tests present s.now) (RunHeaded present (Sheet.header_of s.now)) result }
{
    let h = checked_numbers(s)?;
    if !may_run(h, present) {
        return Err(Refusal::BadPresent);
    }
    if !within_limits(h) {
        return Err(Refusal::BadLength);
    }
    Ok(run_frame_of(h, present))
}

// The frame of a sheet's header, or 1, 2, 3, or 4 for a count. The length is not looked at, nor who is present.
pub fn read_header(s: &[u8]) -> Result<Frame, Refusal>
    ensures { Reads (Sheet.header_tests s.now ++ Sheet.limit_tests (Sheet.header_of s.now)) (Headed (Sheet.header_of s.now)) result }
{
    let h = checked_numbers(s)?;
    if !within_limits(h) {
        return Err(Refusal::BadLength);
    }
    Ok(frame_of(h))
}
