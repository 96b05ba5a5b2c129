// The line that is printed of a sheet: its counts, or its refusal.
#![tactic(auto)]

ghost use Rattle.std.specs.Prelude.{[], ◌∷◌};
ghost use Rattle.sheet_types.specs.Reading.{read_choice};
ghost use Rattle.text.specs.Slices.{Written};
ghost use Rattle.reading_text.specs.ReadingText.{reading_line};

// Writes the line of a sheet and two chosen starts, and gives its length. A slice without room is left as it is, and the
// length is then 0.
pub fn reading_line(s: &[u8], left: usize, right: usize, out: &mut [u8]) -> usize
    ensures { Written (reading_line (read_choice s.now left right)) out.old out.new result }
{
    match sheet_reader::read_choice(s, left, right) {
        Err(refused) => text::refused_line(out, refused.number(), refused.place),
        Ok(sheet) => text::read_line(
            out,
            sheet.facts,
            sheet.rule_count,
            sheet.node_count,
            sheet.start_count,
        ),
    }
}
