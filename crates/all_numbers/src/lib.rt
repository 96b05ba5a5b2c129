// The answer of the call for all starts as numbers, for callers in C and Rust.
#![tactic(auto)]

ghost use Rattle.answer_numbers.specs.OutcomeOf.{outcome_with};
ghost use Rattle.std.specs.Prelude.{◌≡◌};
ghost use Rattle.all_numbers.specs.AllNumbers.{all_numbers};

use all_starts::Grouped;
use refusals::Refuses;

// Round, the answer's length, the refusal's place; 0 for what does not apply.
pub fn all_numbers<E: Refuses>(r: Result<Grouped, E>) -> [usize; 3]
    ensures { result ≡ all_numbers (outcome_with E.number_of E.place_of r) }
{
    match r {
        Ok(x) => [x.round, x.length, 0],
        Err(refused) => [0, 0, refused.refusal_place()],
    }
}
