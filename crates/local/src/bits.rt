// Dealt bits as cells, seven to a row, and the number that they spell.
ghost use Rattle.std.specs.Prelude.{◌≡◌, ◌+◌, ◌*◌, ◌≤◌, length, drop};
ghost use Rattle.model.specs.Bytes as Bytes;
ghost use Rattle.model.specs.Sheet as Sheet;
ghost use Rattle.model.specs.Steps as Steps;
ghost use Rattle.sharing.specs.Settings.{setting_of, Fitting};

use secret::Row;
use sharing::rows;
use sharing::setting::Setting;

// So many rows, from place i of the sheet's bytes on, become the first rows of the cells. Past them the cells are unchanged.
pub fn put_rows(n: usize, s: &[u8], i: usize, count: usize, cells: &mut [u32])
    requires { (n ≤ 7) × (i + count * (4 * n) ≤ length s.now) × (7 * count ≤ length cells.old) }
    ensures { (Bytes.sevens count cells.new ≡ Sheet.rows_at s.now n i count) × (drop (7 * count) cells.new ≡ drop (7 * count) cells.old) }
{
    for k in 0..count {
        let row = rows::read_row(s, n, i + k * (4 * n));
        rows::put_shares(cells, 7 * k, row, 7);
    }
}

// The number that the first w rows of the cells spell, bit 0 first.
pub fn spelled_row(setting: Setting, w: usize, cells: &[u32]) -> Row
    requires { Fitting setting × (7 * w ≤ length cells.now) }
    ensures { result.shares ≡ Steps.spelled (setting_of setting) (Bytes.sevens w cells.now) }
{
    let mut r = rows::constant_row(setting, 0);
    for k in (0..w).rev() {
        r = rows::add_scaled(setting, rows::cell_row(cells, k), 2, r);
    }
    r
}
