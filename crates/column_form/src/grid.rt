// Where the shares stand in a sheet and in its column form.
ghost use Rattle.std.specs.Prelude.{◌≡◌, ◌+◌, ◌^◌, ◌≤◌, ◌<◌};
ghost use Rattle.column_form.specs.Grids.{sheet_grid, column_grid, further_on};

// The place of the grid's first share, and how many bytes it is from a share down to the same party's in the next row, and across to the next party's in the
// same row.
#[derive(Clone, Copy)]
pub struct Grid {
    pub first: usize,
    pub down: usize,
    pub across: usize,
}

impl Grid {
    // The same grid, begun so many bytes further on.
    pub fn further_on(self, bytes: usize) -> Grid
        requires { self.first + bytes < 2 ^ 64 }
        ensures { result ≡ further_on bytes self }
    {
        Grid {
            first: self.first + bytes,
            ..self
        }
    }
}

// A sheet has its shares row after row.
pub fn sheet_grid(place: usize, parties: usize) -> Grid
    requires { parties ≤ 7 }
    ensures { result ≡ sheet_grid place parties }
{
    Grid {
        first: place,
        down: 4 * parties,
        across: 4,
    }
}

// A column form has them part after part.
pub fn column_grid(place: usize, rows: usize) -> Grid
    requires { rows ≤ 2096 }
    ensures { result ≡ column_grid place rows }
{
    Grid {
        first: place,
        down: 4,
        across: 4 * rows,
    }
}
