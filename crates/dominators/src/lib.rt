// The dominating move that is kept for each move from round to round: members found by their numbers, and whether a move is
// irredundant in the present classes. Each pair of moves is tried once in all rounds.
#![tactic(auto)]

ghost use Rattle.std.specs.Prelude.{◌+◌, ◌%◌, ◌≤◌, ◌<◌, length};
ghost use Rattle.dominators.specs.FoundMembers.{FoundAt, LiftedAt};
ghost use Rattle.dominators.specs.SliceShapes.{SpanFits};
ghost use Rattle.dominators.specs.DominatorSearch.{DominatedBy, LookedFrom, Judged};
ghost use Rattle.dominators.specs.ForgottenMoves.{Forgotten};
ghost use Rattle.work_layout.specs.WorkLayout.{work_end, member_room, move_room};

use dominance_tests::{comes_below, look_from, still_dominated};
use packing::Numbers;
use work_layout::{DOMINATORS, MOVES, NONE};

// The place of the member of these numbers, by halving.
pub fn find_member(work: &[u32], n: usize, x: Numbers) -> usize
    requires { (n ≤ member_room) × (work_end ≤ length work.now) }
    ensures { FoundAt work.now n x result }
{
    let mut low: usize = 0;
    let mut high = n;
    while low < high {
        let mid = low + (high - low) / 2;
        let key = work_layout::key_at(work, mid);
        if key.compare(x).is_lt() {
            low = mid + 1;
        } else {
            high = mid;
        }
    }
    low
}

// The place of the member with the store of member t and the threads of member u.
pub fn find_lifted(work: &[u32], n: usize, t: usize, u: usize) -> usize
    requires { (n ≤ member_room) × (t ≤ member_room) × (u ≤ member_room) × (work_end ≤ length work.now) }
    ensures { LiftedAt work.now n t u result }
{
    let key = work_layout::key_at(work, u);
    let count = key.a % 256;
    find_member(
        work,
        n,
        Numbers {
            a: work_layout::store_at(work, t) * 256 + count,
            b: key.b,
            c: key.c,
        },
    )
}

// Whether move x dominates y in the present classes: the place of the member that shows it, or none.
fn dominated_by(work: &[u32], n: usize, x: u32, y: u32) -> Option<u32>
    requires { (n ≤ member_room) × (x % 65536 < n) × (y % 65536 < n) × (work_end ≤ length work.now) }
    ensures { DominatedBy work.now n x y result }
{
    if !comes_below(work, x, y) {
        return None;
    }
    let t = (y % 65536) as usize;
    let q = find_lifted(work, n, t, (x % 65536) as usize);
    if work_layout::class_at(work, q) == work_layout::class_at(work, t) {
        Some(q as u32)
    } else {
        None
    }
}

// The first move from place k on, before place j, that dominates the move at j, with the member that shows it; j and NONE
// where there is none. Places are counted from the member's first move.
fn dominator_from(work: &[u32], n: usize, first: usize, j: usize, k: usize) -> u32
    requires { SpanFits work.now n first (j + 1) }
    ensures { LookedFrom work.now n first j k result }
{
    let y = work[MOVES + first + j];
    for i in k..j {
        if let Some(q) = dominated_by(work, n, work[MOVES + first + i], y) {
            return (i as u32) * 65536 + q;
        }
    }
    (j as u32) * 65536 + NONE
}

// Whether the move at place j is irredundant in the present classes. The dominating move that was found is kept.
pub fn irredundant(work: &mut [u32], n: usize, first: usize, j: usize) -> bool
    requires { SpanFits work.old n first (j + 1) }
    ensures { Judged work.old n first j work.new result }
{
    let kept = work[DOMINATORS + first + j];
    let t = (work[MOVES + first + j] % 65536) as usize;
    if still_dominated(work, kept, t) {
        return false;
    }
    let next = dominator_from(work, n, first, j, look_from(kept));
    work[DOMINATORS + first + j] = next;
    next % 65536 == NONE
}

// No dominating move is known of the first m moves.
pub fn forget_dominators(work: &mut [u32], m: usize)
    requires { (m ≤ move_room) × (work_end ≤ length work.old) }
    ensures { Forgotten work.old m work.new }
{
    for k in 0..m {
        work[DOMINATORS + k] = NONE;
    }
}
