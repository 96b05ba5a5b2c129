// The text that the program prints of what the call returned.
#![tactic(auto)]

ghost use Rattle.answers.specs.OutcomeOf.{outcome_with};
ghost use Rattle.std.specs.Prelude.{◌≤◌, length};
ghost use Rattle.outcome_text.specs.OutcomeText.{OutcomeWritten, OutcomeStored};
ghost use Rattle.outcome_text.specs.TextRoom.{text_room};

use answers::Reported;
use refusals::Refuses;

const TEXT_ROOM: usize = 65536;

// The text of a report, from its answer bytes, or of a refusal, where there is room for it; and its length.
fn put_outcome<E: Refuses>(r: Result<Reported, E>, answer: &[u8], out: &mut [u8]) -> usize
    requires { text_room ≤ length out.old }
    ensures { OutcomeStored (outcome_with E.number_of E.place_of r) answer.now out.old out.new result }
{
    match r {
        Ok(x) => report_text::report_text(x.same, x.round, answer, out),
        Err(refused) => text::refused_line(out, refused.refusal_number(), refused.refusal_place()),
    }
}

// The text of what the call returned, and its length. A slice of less than 65,536 bytes is left as it is.
pub fn outcome_text<E: Refuses>(r: Result<Reported, E>, answer: &[u8], out: &mut [u8]) -> usize
    ensures { OutcomeWritten (outcome_with E.number_of E.place_of r) answer.now out.old out.new result }
{
    if out.len() < TEXT_ROOM {
        return 0;
    }
    put_outcome(r, answer, out)
}
