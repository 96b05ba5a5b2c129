// The reply to a move: among the moves of the other with its label the one whose target is separated last.
#![tactic(auto)]

ghost use Rattle.std.specs.Prelude.{◌≡◌, ◌%◌, IfSome};
ghost use Rattle.telling_moves.specs.TrailLayout.{PairFits};
ghost use Rattle.trail_replies.specs.Replies.{better_at, reply_at};

use work_layout::MOVES;

// The better of the best reply so far and move x, to move y.
fn better(work: &[u32], last: usize, y: u32, best: Option<u32>, x: u32) -> Option<u32>
    requires { PairFits work.now last (y % 65536) (x % 65536) × IfSome best (λ b. PairFits work.now last (y % 65536) b) }
    ensures { result ≡ better_at work.now last y best x }
{
    if x / 65536 != y / 65536 {
        return best;
    }
    let u = x % 65536;
    let Some(b) = best else {
        return Some(u);
    };
    let t = (y % 65536) as usize;
    if separations::apart_at(work, last, t, b as usize)
        < separations::apart_at(work, last, t, u as usize)
    {
        return Some(u);
    }
    best
}

// The place of the reply's target: among the moves of q with the label of y the one separated last; none where there is none.
pub fn reply_to(work: &[u32], last: usize, y: u32, q: usize) -> Option<u32>
    requires { PairFits work.now last (y % 65536) q }
    ensures { result ≡ reply_at work.now last y q }
{
    let first = work_layout::first_move(work, q);
    let total = work_layout::move_total(work, q);
    let mut best = None;
    for k in 0..total {
        best = better(work, last, y, best, work[MOVES + first + k]);
    }
    best
}
