// The answer after so many rounds, over a set that stands in the work slice: rounds, verdict and answer bytes.
#![tactic(auto)]

ghost use Rattle.after_rounds.specs.OutcomeOf.{outcome_of};
ghost use Rattle.two_starts.specs.TwoStarts.{StartsReady};
ghost use Rattle.set_rounds.specs.RoundMade.{RoundMade};

use after_rounds::Reached;
use refusals::{Refusal, Refused};
use sheet_types::Configuration;

// The answer after at most `limit` rounds over the set of n members with m moves in the work slice, for the starts p and q; 22 where the
// answer slice is shorter than it.
pub fn round_set(
    work: &mut [u32],
    answer: &mut [u8],
    n: usize,
    m: usize,
    p: Configuration,
    q: Configuration,
    limit: u64,
) -> Result<Reached, Refused>
    requires { StartsReady work.old n m p q }
    ensures { RoundMade limit work.old answer.old n m p q work.new answer.new (outcome_of result) }
{
    let rounds = class_rounds::refine_to(work, n, m, limit);
    separations::number_classes(work, n);
    let length = report_bytes::members_length(work, n);
    if answer.len() < length {
        return Err(Refusal::ShortAnswer.at(length));
    }
    report_bytes::put_members(work, n, answer);
    let left = start_classes::class_of(work, n, p);
    let right = start_classes::class_of(work, n, q);
    let verdict = verdicts::verdict_in(left == right, rounds.last);
    Ok(Reached {
        verdict,
        classes: rounds.classes,
        members: n,
        length,
    })
}
