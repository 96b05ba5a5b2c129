// The constraints of a sheet that was taken in: sets of facts that are their own closures.
ghost use Rattle.std.specs.Prelude.{◌≡◌};
ghost use Rattle.level_reach.specs.Constraints.{includes_all, constraint_of, joined_in};

use level_tables::{areas, numbers};

// More constraints than these are not looked at.
pub(crate) const MOST_CONSTRAINTS: usize = 256;

const SETS: usize = 4096;

// Whether a set has all facts of another.
pub(crate) fn includes(set: usize, part: usize) -> bool
    ensures { result ≡ includes_all set part }
{
    set & part == part
}

// Constraint e.
pub(crate) fn constraint(w: &[usize], e: usize) -> usize
    ensures { result ≡ constraint_of w.now e }
{
    if e < MOST_CONSTRAINTS {
        numbers::number_at(w, areas::CONSTRAINTS + 1 + e)
    } else {
        numbers::NONE
    }
}

// Two constraints joined: the closure of their union.
pub(crate) fn joined(w: &[usize], a: usize, b: usize) -> usize
    ensures { result ≡ joined_in w.now a b }
{
    let union = a | b;
    if union < SETS {
        numbers::number_at(w, union)
    } else {
        numbers::NONE
    }
}
