// The lines of a member in a round: label and class of the target of each of its irredundant moves. Members whose lines can change
// with the class of another are put into its set.
#![tactic(auto)]

ghost use Rattle.std.specs.Prelude.{◌≡◌, ℕ, ◌+◌, ◌*◌, ◌/◌, ◌%◌, ◌≤◌, ◌<◌, length, get_or};
ghost use Rattle.number_lists.specs.Lists.{Ascends};
ghost use Rattle.number_lists.specs.AscendingLaws.{number_order};
ghost use Rattle.number_lists.specs.NumberLists.{numbers_in};
ghost use Rattle.dominators.specs.MemberLines.{packed_line};
ghost use Rattle.dominators.specs.SliceShapes.{target_at, SpanFits, Shape};
ghost use Rattle.round_lines.specs.MemberLinesFound.{LineMoved, MemberDone};
ghost use Rattle.round_lines.specs.WatchingMembers.{SetsGrown, MoveWatched, MemberWatches};
ghost use Rattle.round_lines.specs.SetLinesFound.{SetLined};
ghost use Rattle.work_layout.specs.WorkLayout.{work_end, lines_at, member_room, move_room};
ghost use Rattle.work_layout.specs.ClassLayout.{class_in};

use work_layout::{DOMINATORS, LINE_TOTALS, LINES, MOVES};

// The line of a move: its label and the class of its target.
fn line_of(work: &[u32], y: u32) -> u32
    requires { (y % 65536 ≤ member_room) × (class_in work.now (y % 65536) < 65536) × (work_end ≤ length work.now) }
    ensures { result ≡ packed_line (y / 65536) (class_in work.now (y % 65536)) }
{
    y / 65536 * 65536 + work_layout::class_at(work, (y % 65536) as usize)
}

// The line of the move at place j put among those up to `end`, where it is irredundant.
fn line_move(work: &mut [u32], n: usize, first: usize, total: usize, j: usize, end: usize) -> usize
    requires { SpanFits work.old n first total × (j < total) × (lines_at + first ≤ end) × (end ≤ lines_at + first + j)
        × Ascends number_order.before (numbers_in work.old (lines_at + first) end) }
    ensures { LineMoved work.old n first total j end work.new result }
{
    if !dominators::irredundant(work, n, first, j) {
        return end;
    }
    let line = line_of(work, work[MOVES + first + j]);
    number_lists::enter_number(work, LINES + first, end, LINES + first + total, line).unwrap_or(end)
}

// The lines of the member at place i.
fn line_member(work: &mut [u32], n: usize, i: usize)
    requires { Shape work.old n × (i < n) }
    ensures { MemberDone work.old n i work.new }
{
    let first = work_layout::first_move(work, i);
    let total = work_layout::move_total(work, i);
    let begin = LINES + first;
    let mut end = begin;
    for j in 0..total {
        end = line_move(work, n, first, total, j, end);
    }
    work[LINE_TOTALS + i] = (end - begin) as u32;
}

// Member i put into the sets of those that its move at place j looks at: the move's target and the member that is kept for it.
fn watch_move(
    work: &[u32],
    sets: &mut [u64],
    width: usize,
    n: usize,
    first: usize,
    j: usize,
    i: usize,
)
    requires { (first + j < move_room) × (work_end ≤ length work.now) × (n ≤ member_room) × (target_at work.now first j < n) × (i < 64 * width) × (width ≤ 8)
        × (n * width ≤ length sets.old) }
    ensures { SetsGrown sets.old sets.new × MoveWatched work.now sets.new width n first j i }
{
    let t = (work[MOVES + first + j] % 65536) as usize;
    place_sets::add_place(sets, t * width, i);
    let q = (work[DOMINATORS + first + j] % 65536) as usize;
    if q < n {
        place_sets::add_place(sets, q * width, i);
    }
}

// The member at place i put into the sets of those that its moves look at.
fn watch_member(work: &[u32], sets: &mut [u64], width: usize, n: usize, i: usize)
    requires { Shape work.now n × (i < n) × (i < 64 * width) × (width ≤ 8) × (n * width ≤ length sets.old) }
    ensures { MemberWatches work.now sets.old width n i sets.new }
{
    let first = work_layout::first_move(work, i);
    let total = work_layout::move_total(work, i);
    for j in 0..total {
        watch_move(work, sets, width, n, first, j, i);
    }
}

// The lines of the members at the first k places of the list, each put into the sets of those that its moves look at.
pub fn line_listed(
    work: &mut [u32],
    sets: &mut [u64],
    width: usize,
    n: usize,
    list: &[u16; 512],
    k: usize,
)
    requires { Shape work.old n × (k ≤ member_room) × ((j : ℕ) → j < k → get_or list.now j 0 < n) × (n ≤ 64 * width) × (width ≤ 8)
        × (n * width ≤ length sets.old) }
    ensures { SetLined work.old sets.old width n list.now k work.new sets.new }
{
    for j in 0..k {
        let i = list[j] as usize;
        line_member(work, n, i);
        watch_member(work, sets, width, n, i);
    }
}
