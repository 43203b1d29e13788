// Whether the shares of those present are on one polynomial: every t + 1 of them that are neighbours in the order of parties give the same value.
ghost use Rattle.std.specs.Prelude.{◌≡◌, ◌+◌, ◌^◌, ◌<◌, MatchResult};
ghost use Rattle.algebra.specs.Lists as Lists;
ghost use Rattle.model.specs.Fields as Fields;
ghost use Rattle.from_record.specs.Windowed.{without, WindowsOf, window_value, AllGive, NoneGiven};

use presence::Opening;
use secret::Row;
use sharing::opening;
use sharing::setting::Setting;

// How openings are worked by the parties that a byte says are present, and by those of them past party 1, past party 2, and so on, as long as t + 1 are
// left. Their lowest t + 1 are a window: the windows are all t + 1 neighbours.
#[derive(Clone, Copy)]
pub struct Windows {
    pub present: u32,
    pub count: usize,
    pub openings: [Opening; 6],
}

// The byte without parties 1 to z.
fn without_first(present: u32, z: usize) -> u32
    requires { z < 6 }
    ensures { result ≡ without present z }
{
    (present >> z) << z
}

// The weights are worked out here, and nowhere else: once for a record, and again for each opening at which others are present.
pub fn windows_of(field: usize, n: usize, t: usize, present: u32) -> Windows
    requires { Fields.InUse field × Fields.Parties n t × (present < 2 ^ n) }
    ensures { (result.present ≡ present) × WindowsOf (Fields.modulus field) n t result }
{
    let mut openings = [presence::no_opening(); 6];
    for z in 0..6 {
        let set = without_first(present, z);
        if !presence::permitted(n, t, set) {
            return Windows {
                present,
                count: z,
                openings,
            };
        }
        openings[z] = presence::opening_of(field, n, t, set);
    }
    Windows {
        present,
        count: 6,
        openings,
    }
}

// The value that one of them gives.
fn value_at(p: u32, n: usize, t: usize, windows: Windows, z: usize, row: Row) -> u32
    requires { Fields.Modulus p × Fields.Parties n t × WindowsOf p n t windows × (z < windows.count) × Lists.Below p row.shares }
    ensures { (result ≡ window_value p n t windows.present row.shares z) × (result < p) }
{
    let worked = windows.openings[z];
    let setting = Setting {
        p,
        l: 0,
        n,
        t,
        opening: worked,
    };
    opening::opened_value(setting, row)
}

// The value that all of them give, if there is one; else that of the first, or 0 where there is none.
pub fn value_of_all(p: u32, n: usize, t: usize, windows: Windows, row: Row) -> Result<u32, u32>
    requires { Fields.Modulus p × Fields.Parties n t × WindowsOf p n t windows × Lists.Below p row.shares }
    ensures { MatchResult result (λ v. (0 < windows.count) × AllGive p n t windows row.shares v × (v < p)) (λ v. NoneGiven p n t windows row.shares v × (v < p)) }
{
    if windows.count == 0 {
        return Err(0);
    }
    let value = value_at(p, n, t, windows, 0, row);
    for z in 1..windows.count {
        if value_at(p, n, t, windows, z, row) != value {
            return Err(value);
        }
    }
    Ok(value)
}
