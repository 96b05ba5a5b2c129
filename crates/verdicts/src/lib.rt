// The verdict on two members, by the round that separates them, or by the classes of one round.
#![tactic(auto)]

ghost use Rattle.after_rounds.specs.AfterRoundsRead.{verdict_returned};
ghost use Rattle.std.specs.Prelude.{◌≡◌, ◌<◌};
ghost use Rattle.verdicts.specs.Verdicts.{verdict_on, verdict_in};

use after_rounds::Verdict;
use answers::Reported;

// The verdict on two members that are first separated in round `apart` of `last` rounds.
pub fn verdict_on(apart: usize, last: usize, left: usize, right: usize, length: usize) -> Reported
    requires { 0 < last }
    ensures { result ≡ verdict_on apart last left right length }
{
    if apart == last {
        return Reported {
            same: true,
            round: last - 1,
            left,
            right,
            length,
        };
    }
    Reported {
        same: false,
        round: apart,
        left,
        right,
        length,
    }
}

// The verdict on two members that a round has together or not, where `last` says whether the round equals its successor.
pub fn verdict_in(together: bool, last: bool) -> Verdict
    ensures { result ≡ verdict_returned (verdict_in together last) }
{
    match (together, last) {
        (true, true) => Verdict::Same,
        (true, false) => Verdict::Open,
        (false, _) => Verdict::Diff,
    }
}
