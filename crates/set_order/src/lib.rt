// The explored set put into document 01's order: members by their places, and each move with the place of its target.
#![tactic(auto)]

ghost use Rattle.std.specs.Prelude.{◌≡◌, ℕ, ◌≤◌, ◌<◌, length, get_or};
ghost use Rattle.member_table.specs.MemberTable.{Kept};
ghost use Rattle.collected_moves.specs.CollectedMoves.{member_part};
ghost use Rattle.set_order.specs.SetOrderSteps.{IdsPlaced, placed_number, TargetFits, TargetsPlaced, MovesReady, MovesArranged, AllReady, AllArranged, SpansKept, CopiedAside, AllAside, DiscoveredSome, ArrangedAll};
ghost use Rattle.work_layout.specs.WorkLayout.{work_end, places_at, member_room};

use work_layout::{MEMBERS, MOVES, PLACES, SPANS, SPARE_MEMBERS, SPARE_SPANS};

// For each member, by its id, its place in the order.
fn place_ids(work: &mut [u32], n: usize)
    requires { (work_end ≤ length work.old) × Kept (member_part work.old) n }
    ensures { IdsPlaced work.old n work.new }
{
    for j in 0..n {
        let id = member_table::id_at(work, MEMBERS, n, j);
        work[PLACES + id] = j as u32;
    }
}

// The number of a move with its target's place for its id.
fn placed_number(work: &[u32], y: u32) -> u32
    requires { (work_end ≤ length work.now) × TargetFits work.now y }
    ensures { result ≡ placed_number work.now y }
{
    let id = (y % 65536) as usize;
    y / 65536 * 65536 + work[PLACES + id]
}

// The moves from `from` on, before `end`, with places for ids.
fn place_targets(work: &mut [u32], from: usize, end: usize)
    requires { (work_end ≤ length work.old) × (from ≤ end) × (end ≤ places_at)
        × ((k : ℕ) → from ≤ k → k < end → TargetFits work.old (get_or work.old k 0)) }
    ensures { TargetsPlaced work.old from end work.new }
{
    for i in from..end {
        work[i] = placed_number(work, work[i]);
    }
}

// The moves of a member with places for ids, in ascending order.
fn arrange_moves(work: &mut [u32], id: usize)
    requires { (work_end ≤ length work.old) × (id < member_room) × MovesReady work.old id }
    ensures { MovesArranged work.old id work.new }
{
    let span = work[SPANS + id] - 1;
    let first = MOVES + (span / 65536) as usize;
    let end = first + (span % 65536) as usize;
    place_targets(work, first, end);
    number_lists::sort_numbers(work, first, end);
}

// The same for every member.
fn arrange_all(work: &mut [u32], n: usize)
    requires { AllReady work.old n }
    ensures { AllArranged work.old n n work.new }
{
    for id in 0..n {
        arrange_moves(work, id);
    }
}

// The member at place j of the order and its span, copied aside.
fn copy_aside(work: &mut [u32], n: usize, j: usize)
    requires { SpansKept work.old n × (j < n) }
    ensures { CopiedAside work.old j work.new }
{
    let id = member_table::id_at(work, MEMBERS, n, j);
    let span = work[SPANS + id] - 1;
    let at = MEMBERS + 3 * id;
    work.copy_within(at..at + 3, SPARE_MEMBERS + 3 * j);
    work[SPARE_SPANS + j] = span;
}

fn copy_all_aside(work: &mut [u32], n: usize)
    requires { SpansKept work.old n }
    ensures { AllAside work.old n work.new }
{
    for j in 0..n {
        copy_aside(work, n, j);
    }
}

// The whole set in order.
pub fn arrange(work: &mut [u32], n: usize)
    requires { DiscoveredSome work.old n }
    ensures { ArrangedAll work.old n work.new }
{
    place_ids(work, n);
    arrange_all(work, n);
    copy_all_aside(work, n);
    work.copy_within(SPARE_MEMBERS..SPARE_MEMBERS + 3 * n, MEMBERS);
    work.copy_within(SPARE_SPANS..SPARE_SPANS + n, SPANS);
}
