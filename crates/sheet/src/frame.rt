// A frame.
ghost use Rattle.std.specs.Prelude.{◌≡◌, ◌+◌, ◌*◌, ◌≤◌};
ghost use Rattle.sheet.specs.Framed.{setting_from};

use presence::Opening;
use sharing::setting::Setting;

// What an accepted header says, by value: the field's numbers, the parties, how many input rows, masks and triples there are, the script's
// length, and the places in the sheet's bytes of the first input row, the first mask and the first triple. How openings are worked is found once, for a run;
// a frame that is read for its header alone has `no_opening` there.
#[derive(Clone, Copy)]
pub struct Frame {
    pub p: u32,
    pub l: usize,
    pub largest: u32,
    pub n: usize,
    pub t: usize,
    pub inputs: usize,
    pub masks: usize,
    pub triples: usize,
    pub script: usize,
    pub input: usize,
    pub mask: usize,
    pub triple: usize,
    pub opening: Opening,
}

impl Frame {
    // How many rows there are, of input, masks and triples.
    pub fn rows(self) -> usize
        requires { self.inputs + self.l * self.masks + 3 * self.triples ≤ 2096 }
        ensures { result ≡ self.inputs + self.l * self.masks + 3 * self.triples }
    {
        self.inputs + self.l * self.masks + 3 * self.triples
    }

    pub fn setting(self) -> Setting
        ensures { result ≡ setting_from self }
    {
        Setting {
            p: self.p,
            l: self.l,
            n: self.n,
            t: self.t,
            opening: self.opening,
        }
    }
}
