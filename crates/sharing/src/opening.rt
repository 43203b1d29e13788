// The value that an opening gives, and the shares that it shows.
ghost use Rattle.std.specs.Prelude.{◌≡◌, cond, ◌+◌, ◌*◌, ◌≤◌, ◌<◌, length};
ghost use Rattle.algebra.specs.Lists as Lists;
ghost use Rattle.model.specs.Sharing as Sharing;
ghost use Rattle.model.specs.Presence as Presence;
ghost use Rattle.model.specs.Steps as Steps;
ghost use Rattle.sharing.specs.Settings.{setting_of, Fitting};

use crate::rows;
use crate::setting::Setting;
use presence::Point;
use secret::Row;

// A party's weight times its share.
#[tactic(auto, using(secret::proofs::Testing::at_place, crate::proofs::Opened::product_fits))]
fn term(point: Point, row: Row) -> u64
    requires { (1 ≤ point.party) × (point.party ≤ 7) }
    ensures { result ≡ point.weight * Sharing.at 0 row.shares point.party }
{
    let party = point.party as usize;
    u64::from(point.weight) * u64::from(row.shares[party - 1])
}

// The sum before reducing, of the shares of the lowest t + 1 present parties: each times its weight below p, added. Shares below p are asked for, since
// the weights of other parties than 1 to t + 1 are any numbers below p, so that four products fit 64 bits. Products past the first t + 1 are 0.
fn opened_sum(setting: Setting, row: Row) -> u64
    requires { Fitting setting × Lists.Below setting.p row.shares }
    ensures { result ≡ Sharing.weighted setting.p (Presence.openers setting.n setting.t setting.opening.present) (Sharing.at 0 row.shares) }
{
    let opening = setting.opening;
    let low = term(opening.first, row) + term(opening.second, row);
    low + term(opening.third, row) + term(opening.fourth, row)
}

// The value at 0 that these shares give.
#[tactic(auto, using(crate::proofs::Opened::value_reduced))]
pub fn opened_value(setting: Setting, row: Row) -> u32
    requires { Fitting setting × Lists.Below setting.p row.shares }
    ensures { (result ≡ Steps.value (setting_of setting) row.shares) × (result < setting.p) }
{
    secret::reduce_sum(setting.p, opened_sum(setting, row))
}

// What stands in the record for a share: "p itself stands for an absent share".
fn record_number(present: bool, share: u32, p: u32) -> u32
    ensures { result ≡ cond present share p }
{
    if present { share } else { p }
}

// The n numbers of an opening go to the list, from a place on. With everyone present they are the row's shares, copied without a test of each.
pub fn put_opened(setting: Setting, list: &mut [u32], at: usize, row: Row)
    requires { Fitting setting × (at + setting.n ≤ length list.old) }
    ensures { list.new ≡ Lists.onto_at at (Steps.recorded (setting_of setting) row.shares) list.old }
{
    let opening = setting.opening;
    if presence::all_present(setting.n, opening.present) {
        rows::put_shares(list, at, row, setting.n);
    } else {
        put_marked(setting, list, at, row);
    }
}

// The same, share by share.
fn put_marked(setting: Setting, list: &mut [u32], at: usize, row: Row)
    requires { Fitting setting × (at + setting.n ≤ length list.old) }
    ensures { list.new ≡ Lists.onto_at at (Steps.recorded (setting_of setting) row.shares) list.old }
{
    for j in 0..setting.n {
        let present = (setting.opening.present >> j) % 2 == 1;
        list[at + j] = record_number(present, row.shares[j], setting.p);
    }
}
