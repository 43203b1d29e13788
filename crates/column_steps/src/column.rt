// What a party's column is worked with, where its next mask and triple stand, and an opening.
ghost use Rattle.std.specs.Prelude.{◌≡◌, ◌+◌, ◌*◌, ◌^◌, ◌≤◌, ◌<◌, length};
ghost use Rattle.column_steps.specs.Reads.{Working, OpensNext, past, past_mask};

use from_record::Reader;
use refusals::Refusal;
use secret::Row;
use sharing::setting::Setting;

// How rows of one share are worked, and how openings are read from the record.
#[derive(Clone, Copy)]
pub struct Column {
    pub setting: Setting,
    pub reader: Reader,
}

// Where the next mask and the next triple stand in the party's part, and how many openings of the record were read.
#[derive(Clone, Copy)]
pub struct Ahead {
    pub mask: usize,
    pub triple: usize,
    pub opening: usize,
}

impl Ahead {
    // Past so many triples, with two openings each.
    pub fn past(self, triples: usize) -> Ahead
        requires { (self.triple + 12 * triples < 2 ^ 64) × (self.opening + 2 * triples < 2 ^ 64) }
        ensures { result ≡ past self triples }
    {
        Ahead {
            mask: self.mask,
            triple: self.triple + 12 * triples,
            opening: self.opening + 2 * triples,
        }
    }

    // Past a mask of l bits, with its opening.
    pub fn past_mask(self, l: usize) -> Ahead
        requires { (self.mask + 4 * l < 2 ^ 64) × (self.opening + 1 < 2 ^ 64) }
        ensures { result ≡ past_mask l self }
    {
        Ahead {
            mask: self.mask + 4 * l,
            triple: self.triple,
            opening: self.opening + 1,
        }
    }
}

// A row of one share is opened, so many openings having been read: the record's next n numbers give the value, or a refusal.
#[tactic(auto, using(crate::proofs::Opening::opens_next))]
pub fn open_row(c: Column, log: &[u32], read: usize, row: Row) -> Result<u32, Refusal>
    requires { Working c × (c.reader.n * read ≤ length log.now) }
    ensures { OpensNext c log.now read row.shares result }
{
    let n = c.reader.n;
    from_record::open_next(c.reader, log, n * read, row.shares[0])
}
