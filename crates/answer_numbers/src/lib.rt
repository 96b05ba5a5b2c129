// The answers of calls as numbers, for callers in C and Rust.
#![tactic(auto)]

ghost use Rattle.std.specs.Prelude.{◌≡◌};
ghost use Rattle.answers.specs.OutcomeOf.{outcome_with};
ghost use Rattle.answer_numbers.specs.AnswerNumbers.{same_number_lem, outcome_number, answer_numbers};

use answers::Reported;
use refusals::Refuses;

// 0 for SAME, 1 for DIFF.
fn verdict_number(same: bool) -> usize
    ensures { result ≡ same_number_lem same }
{
    if same { 0 } else { 1 }
}

// 0 for what any call gives, else the refusal's number.
pub fn outcome_number<T: Copy, E: Refuses>(r: Result<T, E>) -> u32
    ensures { result ≡ outcome_number (outcome_with E.number_of E.place_of r) }
{
    match r {
        Ok(_) => 0,
        Err(refused) => u32::from(refused.refusal_number()),
    }
}

// Verdict, round, the places of both starts, the report's length, the refusal's place; 0 for what does not apply.
pub fn answer_numbers<E: Refuses>(r: Result<Reported, E>) -> [usize; 6]
    ensures { result ≡ answer_numbers (outcome_with E.number_of E.place_of r) }
{
    match r {
        Ok(x) => [
            verdict_number(x.same),
            x.round,
            x.left,
            x.right,
            x.length,
            0,
        ],
        Err(refused) => [0, 0, 0, 0, 0, refused.refusal_place()],
    }
}
