// The grouping of a sheet's starts over a set that stands in the work slice: rounds, classes and answer bytes.
#![tactic(auto)]

ghost use Rattle.all_starts.specs.OutcomeOf.{outcome_of};
ghost use Rattle.set_grouping.specs.GroupingMade.{GroupingReady, GroupingMade};

use all_starts::Grouped;
use refusals::{Refusal, Refused};
use sheet_types::Configuration;

// The grouping of the first k starts over the set of n members with m moves in the work slice; 22 where the answer slice is shorter
// than it.
pub fn group_set(
    work: &mut [u32],
    answer: &mut [u8],
    n: usize,
    m: usize,
    starts: [Configuration; 16],
    k: usize,
) -> Result<Grouped, Refused>
    requires { GroupingReady work.old n m starts k }
    ensures { GroupingMade work.old answer.old n m starts k work.new answer.new (outcome_of result) }
{
    let rounds = class_rounds::refine(work, n, m);
    separations::number_classes(work, n);
    let length = report_bytes::members_length(work, n) + 2 * k;
    if answer.len() < length {
        return Err(Refusal::ShortAnswer.at(length));
    }
    let at = report_bytes::put_members(work, n, answer);
    start_classes::put_starts(work, n, starts, k, answer, at);
    Ok(Grouped {
        round: rounds.round,
        length,
    })
}
