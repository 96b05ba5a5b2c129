// The answer of the call for so many rounds as numbers, for callers in C and Rust.
#![tactic(auto)]

ghost use Rattle.answer_numbers.specs.OutcomeOf.{outcome_with};
ghost use Rattle.std.specs.Prelude.{◌≡◌};
ghost use Rattle.rounds_numbers.specs.RoundsNumbers.{verdict_code, rounds_numbers};

use after_rounds::{Reached, Verdict};
use refusals::Refuses;

// 0 for SAME, 1 for DIFF, 2 for OPEN.
fn verdict_number(verdict: Verdict) -> usize
    ensures { result ≡ verdict_code verdict }
{
    match verdict {
        Verdict::Same => 0,
        Verdict::Diff => 1,
        Verdict::Open => 2,
    }
}

// Verdict, the number of classes, the set's size, the answer's length, the refusal's place; 0 for what does not apply.
pub fn rounds_numbers<E: Refuses>(r: Result<Reached, E>) -> [usize; 5]
    ensures { result ≡ rounds_numbers (outcome_with E.number_of E.place_of r) }
{
    match r {
        Ok(x) => {
            let verdict = x.verdict;
            let number = verdict_number(verdict);
            [number, x.classes, x.members, x.length, 0]
        }
        Err(refused) => [0, 0, 0, 0, refused.refusal_place()],
    }
}
