// The line that tells what the second checker found of a report.
#![tactic(auto)]

ghost use Rattle.text.specs.Slices.{Written};
ghost use Rattle.level_text.specs.LevelText.{checked_text};

use level_check::Checked;

// The line of what was found. A slice without room is left as it is, and the length is then 0.
pub fn checked_line(checked: Checked, out: &mut [u8]) -> usize
    ensures { Written (checked_text checked) out.old out.new result }
{
    match checked {
        Checked::Agree(configurations, levels) => text::number_line(
            out,
            b"LEVELS AGREE",
            &[configurations as u64, levels as u64],
        ),
        Checked::TooLarge => text::number_line(out, b"LEVELS TOO LARGE", &[]),
        Checked::Members => text::number_line(out, b"LEVELS DIFFER MEMBERS", &[]),
        Checked::Places => text::number_line(out, b"LEVELS DIFFER PLACES", &[]),
        Checked::Verdict => text::number_line(out, b"LEVELS DIFFER VERDICT", &[]),
        Checked::Round => text::number_line(out, b"LEVELS DIFFER ROUND", &[]),
        Checked::Classes => text::number_line(out, b"LEVELS DIFFER CLASSES", &[]),
    }
}
