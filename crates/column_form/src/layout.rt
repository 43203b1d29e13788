// What both entries look at: the header and two lengths.
ghost use Rattle.model.specs.Columns.{turn_tests};
ghost use Rattle.sheet.specs.Reading.{Reads};
ghost use Rattle.column_form.specs.Laid.{LaidOut};

use refusals::Refusal;
use sheet::header;

// The place of the first share, how many rows there are, and how many parties.
#[derive(Clone, Copy)]
pub struct Layout {
    pub place: usize,
    pub rows: usize,
    pub parties: usize,
}

// The layout of the bytes that are turned, for an output of so many places: "1 to 4 as in the paper", then "15, the output buffer is shorter than the
// sheet".
pub fn find(s: &[u8], room: usize) -> Result<Layout, Refusal>
    ensures { Reads (turn_tests s.now room) (LaidOut s.now room) result }
{
    let f = header::read_header(s)?;
    if !sheet::has_implied_length(s, f) {
        return Err(Refusal::BadLength);
    }
    if room < s.len() {
        return Err(Refusal::OutputShort);
    }
    Ok(Layout {
        place: f.input,
        rows: f.rows(),
        parties: f.n,
    })
}
