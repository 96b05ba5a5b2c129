// The call for all starts of a sheet (document 02, card 1): sheet bytes, an answer slice and a work slice in; the grouping of the starts
// or one refusal out.
#![tactic(auto)]

ghost use Rattle.std.specs.Prelude.{length};
ghost use Rattle.all_starts.specs.OutcomeOf.{outcome_of};
ghost use Rattle.call_frame.specs.Seeds.{CapsFit};
ghost use Rattle.call_frame.specs.FoundSet.{limits_of};
ghost use Rattle.all_starts.specs.Grouping.{compare_all_with, compare_all};
ghost use Rattle.all_call.specs.ComparedAll.{ComparedAll};

use all_starts::Grouped;
use collected_moves::Caps;
use refusals::Refused;

// The call with caps that are given.
fn compare_all_within(
    sheet: &[u8],
    answer: &mut [u8],
    work: &mut [u32],
    caps: Caps,
) -> Result<Grouped, Refused>
    requires { CapsFit caps }
    ensures { ComparedAll (compare_all_with (limits_of caps) sheet.now (length work.old) (length answer.old))
        work.old answer.old work.new answer.new (outcome_of result) }
{
    let set = call_frame::begin_all(sheet, work, caps);
    let size = match set.begun {
        Ok(size) => size,
        Err(refused) => return Err(refused),
    };
    let answered = set_grouping::group_set(
        work,
        answer,
        size.members,
        size.moves,
        set.starts,
        set.count,
    );
    work_layout::clear_work(work);
    answered
}

// The call, within document 01's limits.
pub fn compare_all(sheet: &[u8], answer: &mut [u8], work: &mut [u32]) -> Result<Grouped, Refused>
    ensures { ComparedAll (compare_all sheet.now (length work.old) (length answer.old))
        work.old answer.old work.new answer.new (outcome_of result) }
{
    compare_all_within(sheet, answer, work, call_seeds::document_caps())
}
