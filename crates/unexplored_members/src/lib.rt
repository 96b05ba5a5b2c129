// Which members are explored: the span of one that was is stored, and the lowest place with one that was not is looked for.
#![tactic(auto)]

ghost use Rattle.std.specs.Prelude.{◌≡◌, ◌+◌, ◌≤◌, ◌<◌, eqb, length, get_or, set};
ghost use Rattle.member_table.specs.MemberTable.{Kept};
ghost use Rattle.collected_moves.specs.CollectedMoves.{member_part};
ghost use Rattle.unexplored_members.specs.UnexploredMembers.{span_of, NextPlace};
ghost use Rattle.work_layout.specs.WorkLayout.{work_end, spans_at, member_room, move_room};

use work_layout::{MEMBERS, SPANS};

// Stores where the moves of a member stand.
pub fn put_span(work: &mut [u32], id: usize, first: usize, end: usize)
    requires { (id < member_room) × (first ≤ end) × (end ≤ move_room) × (work_end ≤ length work.old) }
    ensures { work.new ≡ set work.old (spans_at + id) (span_of first end) }
{
    work[SPANS + id] = (first as u32) * 65536 + (end - first) as u32 + 1;
}

// Whether a member is unexplored: no span is stored.
fn unexplored(work: &[u32], id: usize) -> bool
    requires { (id < member_room) × (work_end ≤ length work.now) }
    ensures { result ≡ eqb (get_or work.now (spans_at + id) 0) 0 }
{
    work[SPANS + id] == 0
}

// The lowest place from `low` on whose member is unexplored; n where there is none.
// Kept a number for none: an Option is no plainer, as n is the place behind the last, of which the contract says the same.
pub fn next_place(work: &[u32], low: usize, n: usize) -> usize
    requires { Kept (member_part work.now) n × (low ≤ n) × (work_end ≤ length work.now) }
    ensures { NextPlace work.now low n result }
{
    for j in low..n {
        let id = member_table::id_at(work, MEMBERS, n, j);
        if unexplored(work, id) {
            return j;
        }
    }
    n
}
