// The next places, and how steps move them.
ghost use Rattle.std.specs.Prelude.{◌≡◌};
ghost use Rattle.steps.specs.Places.{past_triples, past_mask, Ahead, MaskAhead};

use sharing::setting::Setting;

// Where the next mask and the next triple stand in the sheet's bytes, and where the next opening goes in the record.
#[derive(Clone, Copy)]
pub struct Places {
    pub mask: usize,
    pub triple: usize,
    pub log: usize,
}

impl Places {
    // Past so many triples, with two openings each.
    pub fn past(self, setting: Setting, triples: usize) -> Places
        requires { Ahead setting self triples }
        ensures { result ≡ past_triples setting self triples }
    {
        Places {
            mask: self.mask,
            triple: self.triple + triples * (12 * setting.n),
            log: self.log + triples * (2 * setting.n),
        }
    }

    // Past a mask, with its opening.
    pub fn past_mask(self, setting: Setting) -> Places
        requires { MaskAhead setting self }
        ensures { result ≡ past_mask setting self }
    {
        Places {
            mask: self.mask + setting.l * (4 * setting.n),
            triple: self.triple,
            log: self.log + setting.n,
        }
    }
}
