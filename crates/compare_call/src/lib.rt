// The comparing call: sheet bytes, two start numbers, an answer slice and a work slice in; the report or one refusal out. Document 01's
// call and the desk's are the same within other limits.
#![tactic(auto)]

ghost use Rattle.std.specs.Prelude.{length};
ghost use Rattle.answers.specs.Call.{compare_with, compare, compare_desk};
ghost use Rattle.answers.specs.OutcomeOf.{outcome_of};
ghost use Rattle.call_frame.specs.Seeds.{CapsFit};
ghost use Rattle.call_frame.specs.FoundSet.{limits_of};
ghost use Rattle.compare_call.specs.Compared.{Compared};

use answers::Reported;
use collected_moves::Caps;
use refusals::Refused;

// The call with caps that are given.
fn compare_within(
    sheet: &[u8],
    left: usize,
    right: usize,
    answer: &mut [u8],
    work: &mut [u32],
    caps: Caps,
) -> Result<Reported, Refused>
    requires { CapsFit caps }
    ensures { Compared (compare_with (limits_of caps) sheet.now left right
        (length work.old) (length answer.old))
        work.old answer.old work.new answer.new (outcome_of result) }
{
    let set = call_frame::begin_pair(sheet, left, right, work, caps);
    let size = match set.begun {
        Ok(size) => size,
        Err(refused) => return Err(refused),
    };
    let answered = set_report::report_set(
        work,
        answer,
        size.members,
        size.moves,
        set.left,
        set.right,
    );
    work_layout::clear_work(work);
    answered
}

// Document 01's call.
pub fn compare(
    sheet: &[u8],
    left: usize,
    right: usize,
    answer: &mut [u8],
    work: &mut [u32],
) -> Result<Reported, Refused>
    ensures { Compared (compare sheet.now left right
        (length work.old) (length answer.old))
        work.old answer.old work.new answer.new (outcome_of result) }
{
    compare_within(
        sheet,
        left,
        right,
        answer,
        work,
        call_seeds::document_caps(),
    )
}

// The desk's call (document 02, card 3).
pub fn compare_desk(
    sheet: &[u8],
    left: usize,
    right: usize,
    answer: &mut [u8],
    work: &mut [u32],
) -> Result<Reported, Refused>
    ensures { Compared (compare_desk sheet.now left right
        (length work.old) (length answer.old))
        work.old answer.old work.new answer.new (outcome_of result) }
{
    compare_within(sheet, left, right, answer, work, call_seeds::desk_caps())
}
