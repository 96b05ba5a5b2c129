// The trail: from a pair that is first separated in a round above 0, the first irredundant move of the round before without an
// answer, and the reply that is separated last. Steps stand in the work slice, three numbers each.
#![tactic(auto)]

ghost use Rattle.std.specs.Prelude.{◌≡◌, ◌≤◌, ◌<◌, length};
ghost use Rattle.telling_moves.specs.TrailLayout.{Followable};
ghost use Rattle.trail_search.specs.TakenMove.{other_of, next_left, next_right, reply_number};
ghost use Rattle.trail_search.specs.TakenSides.{side_number, TakenIs};
ghost use Rattle.trail_search.specs.FollowedTrail.{step_stored, Trailed};
ghost use Rattle.work_layout.specs.WorkLayout.{work_end, member_room};

use telling_moves::telling;
use trail_replies::reply_to;
use work_layout::{MOVES, NONE, STEPS};

// The side that moves.
#[derive(Clone, Copy)]
pub enum Side {
    Left,
    Right,
}

// A move that was taken: its side and its number.
#[derive(Clone, Copy)]
pub struct Taken {
    pub side: Side,
    pub number: u32,
}

// A pair of places.
#[derive(Drop)]
pub struct Pair {
    pub left: usize,
    pub right: usize,
}

// The move that is taken at a pair: the left's tried before the right's.
fn take_move(work: &[u32], n: usize, last: usize, p: usize, q: usize, r: usize) -> Option<Taken>
    requires { Followable work.now n last × (p < n) × (q < n) }
    ensures { TakenIs work.now n last r p q result }
{
    if let Some(j) = telling(work, n, last, p, q, r) {
        return Some(Taken {
            side: Side::Left,
            number: work[MOVES + work_layout::first_move(work, p) + j],
        });
    }
    let k = telling(work, n, last, q, p, r)?;
    Some(Taken {
        side: Side::Right,
        number: work[MOVES + work_layout::first_move(work, q) + k],
    })
}

// Stores step k: 0 for the left or 1 for the right, the move's number, and the reply's place.
fn put_step(work: &mut [u32], k: usize, taken: Taken, reply: Option<u32>)
    requires { (k ≤ member_room) × (work_end ≤ length work.old) }
    ensures { work.new ≡ step_stored work.old k (side_number taken.side) taken.number (reply_number reply) }
{
    let side = match taken.side {
        Side::Left => 0,
        Side::Right => 1,
    };
    number_lists::put_three(
        work,
        STEPS + 3 * k,
        side,
        taken.number,
        reply.unwrap_or(NONE),
    );
}

// The place of the one that replies.
fn other_of(taken: Taken, p: usize, q: usize) -> usize
    ensures { result ≡ other_of (side_number taken.side) p q }
{
    match taken.side {
        Side::Left => q,
        Side::Right => p,
    }
}

// The new pair: sides are kept.
fn next_pair(taken: Taken, reply: u32) -> Pair
    ensures { (result.left ≡ next_left (side_number taken.side) taken.number reply)
        × (result.right ≡ next_right (side_number taken.side) taken.number reply) }
{
    let target = (taken.number % 65536) as usize;
    match taken.side {
        Side::Left => Pair {
            left: target,
            right: reply as usize,
        },
        Side::Right => Pair {
            left: reply as usize,
            right: target,
        },
    }
}

// The trail from the members at places p and q, and how many steps it has.
pub fn trail(work: &mut [u32], n: usize, last: usize, p: usize, q: usize) -> usize
    requires { Followable work.old n last × (p < n) × (q < n) }
    ensures { Trailed work.old n last p q work.new result }
{
    let mut left = p;
    let mut right = q;
    for k in 0..last {
        let r = separations::apart_at(work, last, left, right);
        if r == 0 || r == last {
            return k;
        }
        let Some(taken) = take_move(work, n, last, left, right, r - 1) else {
            unreachable!()
        };
        let reply = reply_to(work, last, taken.number, other_of(taken, left, right));
        put_step(work, k, taken, reply);
        let Some(place) = reply else {
            return k + 1;
        };
        let pair = next_pair(taken, place);
        left = pair.left;
        right = pair.right;
    }
    last
}
