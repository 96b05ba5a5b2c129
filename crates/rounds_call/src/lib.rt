// The call for so many rounds (document 02, card 13): sheet bytes, two start numbers, a number of rounds, an answer slice and a work slice
// in; what those rounds say of the starts or one refusal out. Within document 01's limits and within the desk's.
#![tactic(auto)]

ghost use Rattle.std.specs.Prelude.{length};
ghost use Rattle.after_rounds.specs.AfterRounds.{compare_rounds_with, compare_rounds, compare_rounds_desk};
ghost use Rattle.after_rounds.specs.OutcomeOf.{outcome_of};
ghost use Rattle.call_frame.specs.Seeds.{CapsFit};
ghost use Rattle.call_frame.specs.FoundSet.{limits_of};
ghost use Rattle.rounds_call.specs.ComparedRounds.{ComparedRounds};

use after_rounds::Reached;
use collected_moves::Caps;
use refusals::Refused;

// The call with caps that are given.
fn compare_rounds_within(
    sheet: &[u8],
    left: usize,
    right: usize,
    rounds: u64,
    answer: &mut [u8],
    work: &mut [u32],
    caps: Caps,
) -> Result<Reached, Refused>
    requires { CapsFit caps }
    ensures { ComparedRounds (compare_rounds_with (limits_of caps) sheet.now left right rounds
        (length work.old) (length answer.old))
        work.old answer.old work.new answer.new (outcome_of result) }
{
    let set = call_frame::begin_pair(sheet, left, right, work, caps);
    let size = match set.begun {
        Ok(size) => size,
        Err(refused) => return Err(refused),
    };
    let answered = set_rounds::round_set(
        work,
        answer,
        size.members,
        size.moves,
        set.left,
        set.right,
        rounds,
    );
    work_layout::clear_work(work);
    answered
}

// The call within document 01's limits.
pub fn compare_rounds(
    sheet: &[u8],
    left: usize,
    right: usize,
    rounds: u64,
    answer: &mut [u8],
    work: &mut [u32],
) -> Result<Reached, Refused>
    ensures { ComparedRounds (compare_rounds sheet.now left right rounds
        (length work.old) (length answer.old))
        work.old answer.old work.new answer.new (outcome_of result) }
{
    compare_rounds_within(
        sheet,
        left,
        right,
        rounds,
        answer,
        work,
        call_seeds::document_caps(),
    )
}

// The call within the desk's limits.
pub fn compare_rounds_desk(
    sheet: &[u8],
    left: usize,
    right: usize,
    rounds: u64,
    answer: &mut [u8],
    work: &mut [u32],
) -> Result<Reached, Refused>
    ensures { ComparedRounds (compare_rounds_desk sheet.now left right rounds
        (length work.old) (length answer.old))
        work.old answer.old work.new answer.new (outcome_of result) }
{
    compare_rounds_within(
        sheet,
        left,
        right,
        rounds,
        answer,
        work,
        call_seeds::desk_caps(),
    )
}
