// What a party's column is worked with, made of its header, its number and the record; and its cells.
ghost use Rattle.std.specs.Prelude.{◌≡◌, map, ◌+◌, ◌*◌, ◌≤◌};
ghost use Rattle.model.specs.Bytes as Bytes;
ghost use Rattle.model.specs.Fields as Fields;
ghost use Rattle.model.specs.Replay.{own_share};
ghost use Rattle.presence.specs.Openings.{WorkedBy};
ghost use Rattle.replay.specs.Owning.{Framing, ColumnFor, OwnFor};

use column_commands::own::Own;
use column_steps::column::Column;
use presence::{Opening, Point};
use sharing::setting::Setting;
use sheet::frame::Frame;

// How openings are worked in a table of one column: its one share is the value. Rows are worked with a setting, and a setting has this; nothing is opened
// by it.
fn alone(p: u32) -> Opening
    requires { Fields.Modulus p }
    ensures { (result.present ≡ 1) × WorkedBy p 1 0 result }
{
    let one = Point {
        party: 1,
        weight: 1,
    };
    let none = Point {
        party: 1,
        weight: 0,
    };
    Opening {
        present: 1,
        first: one,
        second: none,
        third: none,
        fourth: none,
    }
}

// Rows of one share, and the record of a table of n.
fn column_of(f: Frame, field: usize, party: usize, log: &[u32]) -> Column
    requires { Framing f field party }
    ensures { ColumnFor f party result }
{
    let reader = from_record::reader_for(field, f.n, f.t, party, log);
    let opening = alone(f.p);
    let setting = Setting {
        p: f.p,
        l: f.l,
        n: 1,
        t: 0,
        opening,
    };
    Column { setting, reader }
}

// A share is 4 bytes: the masks stand after the inputs, and the triples after the masks.
pub fn own_of(f: Frame, field: usize, party: usize, log: &[u32]) -> Own
    requires { Framing f field party }
    ensures { OwnFor f party result }
{
    let column = column_of(f, field, party, log);
    let mask = 4 * f.inputs;
    Own {
        column,
        largest: f.largest,
        inputs: f.inputs,
        mask,
        triple: mask + 4 * f.l * f.masks,
    }
}

// The first of each register's seven cells.
pub fn own_cells(cells: [u32; 448]) -> [u32; 64]
    ensures { result ≡ map own_share (Bytes.sevens 64 cells) }
{
    let mut own = [0u32; 64];
    for r in 0..64 {
        own[r] = cells[7 * r];
    }
    own
}
