// The moves of one member that tell it from another in a round: irredundant, and without an answer.
#![tactic(auto)]

ghost use Rattle.std.specs.Prelude.{◌≡◌, ◌%◌, ◌<◌};
ghost use Rattle.work_layout.specs.SetLayout.{first_move, move_total};
ghost use Rattle.telling_moves.specs.PlaceTests.{FirstFound};
ghost use Rattle.telling_moves.specs.TrailLayout.{Followable, MovesOfOne, MoveOfOne, PairFits};
ghost use Rattle.telling_moves.specs.TrailPlaces.{dominates_at, redundant_at, answers_at, answered_at, tells_at};

use work_layout::MOVES;

// Whether move x makes y redundant in round r.
fn dominates_in(work: &[u32], n: usize, last: usize, x: u32, y: u32, r: usize) -> bool
    requires { Followable work.now n last × MovesOfOne work.now n x y }
    ensures { result ≡ dominates_at work.now n last r x y }
{
    if !dominance_tests::comes_below(work, x, y) {
        return false;
    }
    let t = (y % 65536) as usize;
    let q = dominators::find_lifted(work, n, t, (x % 65536) as usize);
    r < separations::apart_at(work, last, t, q)
}

// Whether the move at place j of those from `first` on is redundant in round r.
fn redundant_in(work: &[u32], n: usize, last: usize, first: usize, j: usize, r: usize) -> bool
    requires { Followable work.now n last × MoveOfOne work.now n first j }
    ensures { result ≡ redundant_at work.now n last r first j }
{
    let y = work[MOVES + first + j];
    for k in 0..j {
        if dominates_in(work, n, last, work[MOVES + first + k], y, r) {
            return true;
        }
    }
    false
}

// Whether move x answers y in round r: the same label, into the class of its target.
fn answers_in(work: &[u32], last: usize, x: u32, y: u32, r: usize) -> bool
    requires { PairFits work.now last (y % 65536) (x % 65536) }
    ensures { result ≡ answers_at work.now last r x y }
{
    if x / 65536 != y / 65536 {
        return false;
    }
    r < separations::apart_at(work, last, (y % 65536) as usize, (x % 65536) as usize)
}

// Whether a move of the member at place q answers y in round r.
fn answered_in(work: &[u32], last: usize, q: usize, y: u32, r: usize) -> bool
    requires { PairFits work.now last (y % 65536) q }
    ensures { result ≡ answered_at work.now last r q y }
{
    let first = work_layout::first_move(work, q);
    let total = work_layout::move_total(work, q);
    for k in 0..total {
        if answers_in(work, last, work[MOVES + first + k], y, r) {
            return true;
        }
    }
    false
}

// Whether the move at place j of p tells p from q in round r.
fn tells(work: &[u32], n: usize, last: usize, first: usize, j: usize, q: usize, r: usize) -> bool
    requires { Followable work.now n last × MoveOfOne work.now n first j × (q < n) }
    ensures { result ≡ tells_at work.now n last r first q j }
{
    if answered_in(work, last, q, work[MOVES + first + j], r) {
        return false;
    }
    !redundant_in(work, n, last, first, j, r)
}

// The place of the first move of p that tells p from q in round r; none where no move does.
pub fn telling(work: &[u32], n: usize, last: usize, p: usize, q: usize, r: usize) -> Option<usize>
    requires { Followable work.now n last × (p < n) × (q < n) }
    ensures { FirstFound (tells_at work.now n last r (first_move work.now p) q) (move_total work.now p) result }
{
    let first = work_layout::first_move(work, p);
    let total = work_layout::move_total(work, p);
    for j in 0..total {
        if tells(work, n, last, first, j, q, r) {
            return Some(j);
        }
    }
    None
}
