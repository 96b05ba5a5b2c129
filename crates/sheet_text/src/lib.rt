// The text that the program prints of a sheet: its starts 0 and 1 compared.
#![tactic(auto)]

ghost use Rattle.std.specs.Prelude.{◌≡◌, length};
ghost use Rattle.sheet_text.specs.SheetText.{SheetWritten};

// An answer slice in which every report has room.
fn answer_room() -> [u8; 10237]
    ensures { 10237 ≡ length result }
{
    [0; 10237]
}

// The text of the report on starts 0 and 1, or of the refusal, and its length. A slice of less than 65,536 bytes is left as it
// is.
pub fn sheet_text(sheet: &[u8], out: &mut [u8]) -> usize
    ensures { SheetWritten sheet.now out.old out.new result }
{
    let mut answer = answer_room();
    let mut work = work_layout::work_room();
    let r = compare_call::compare(sheet, 0, 1, &mut answer, &mut work);
    outcome_text::outcome_text(r, &answer, out)
}
