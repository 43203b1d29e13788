// The column form of a sheet and the way back: "the same header and script, then all of party 1's shares (inputs, masks, triples in sheet order),
// then party 2's, and so on".
#![tactic(auto)]

mod grid;
mod layout;
mod shares;

ghost use Rattle.std.specs.Prelude.{◌≡◌};
ghost use Rattle.model.specs.Columns.{column_form, sheet_form, turn_number, output_left};
ghost use Rattle.refusals.specs.Numbers.{told};

use refusals::Refusal;

// Writes a sheet's column form to the start of the output. Refuses 1, 2, 3, 4 or 15, and then nothing is written.
#[tactic(auto, using(crate::proofs::Layouts::form_left, crate::proofs::Layouts::left_alone, refusals::proofs::Numbers::numbered))]
pub fn to_columns(sheet: &[u8], columns: &mut [u8]) -> Result<(), Refusal>
    ensures number { told result ≡ turn_number sheet.now columns.old }
    ensures left { columns.new ≡ output_left column_form sheet.now columns.old }
{
    let found = layout::find(sheet, columns.len())?;
    shares::turn_over(sheet, found, columns);
    Ok(())
}

// Writes the sheet of a column form to the start of the output. Refuses 1, 2, 3, 4 or 15, and then nothing is written.
#[tactic(auto, using(crate::proofs::Layouts::form_left, crate::proofs::Layouts::left_alone, refusals::proofs::Numbers::numbered))]
pub fn to_sheet(columns: &[u8], sheet: &mut [u8]) -> Result<(), Refusal>
    ensures number { told result ≡ turn_number columns.now sheet.old }
    ensures left { sheet.new ≡ output_left sheet_form columns.now sheet.old }
{
    let found = layout::find(columns, sheet.len())?;
    shares::turn_back(columns, found, sheet);
    Ok(())
}
