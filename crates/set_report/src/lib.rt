// The report on a set that stands in the work slice: rounds, verdict, trail and answer bytes.
#![tactic(auto)]

ghost use Rattle.answers.specs.OutcomeOf.{outcome_of};
ghost use Rattle.two_starts.specs.TwoStarts.{StartsReady};
ghost use Rattle.set_report.specs.ReportMade.{ReportMade};

use answers::Reported;
use refusals::{Refusal, Refused};
use sheet_types::Configuration;
use verdicts::verdict_on;

// The report on the set of n members with m moves in the work slice, for the starts p and q; 22 where the answer slice is
// shorter than it.
pub fn report_set(
    work: &mut [u32],
    answer: &mut [u8],
    n: usize,
    m: usize,
    p: Configuration,
    q: Configuration,
) -> Result<Reported, Refused>
    requires { StartsReady work.old n m p q }
    ensures { ReportMade work.old answer.old n m p q work.new answer.new (outcome_of result) }
{
    let rounds = class_rounds::refine(work, n, m);
    let last = rounds.round + 1;
    let left = dominators::find_member(work, n, p.numbers());
    let right = dominators::find_member(work, n, q.numbers());
    let apart = separations::apart_at(work, last, left, right);
    let steps = trail_search::trail(work, n, last, left, right);
    separations::number_classes(work, n);
    let length = report_bytes::report_length(work, n, steps);
    if answer.len() < length {
        return Err(Refusal::ShortAnswer.at(length));
    }
    report_bytes::put_report(work, n, steps, answer);
    Ok(verdict_on(apart, last, left, right, length))
}
