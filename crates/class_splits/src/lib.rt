// One member in the next round: it keeps its class, joins a part of it that was born in this round, or begins a new part, by its
// lines and those of chosen members.
#![tactic(auto)]

ghost use Rattle.std.specs.Prelude.{◌≡◌, ℕ, ◌+◌, ◌*◌, ◌≤◌, ◌<◌, false, length, set};
ghost use Rattle.class_splits.specs.ClassedPlaces.{Tells, chosen_in};
ghost use Rattle.class_splits.specs.LineTests.{numbers_from, lines_held, LineFits, PartFits};
ghost use Rattle.class_splits.specs.MemberSplits.{PartFound, MemberReady, MemberSplit};
ghost use Rattle.work_layout.specs.WorkLayout.{work_end, births_at, chosen_at, member_room};

use work_layout::{BIRTHS, CHOSEN, CLASSES, LINE_TOTALS, LINES};

// Stores a new class: the class it came from, the round, and its chosen member.
pub fn put_class(work: &mut [u32], c: usize, from: u32, round: usize, i: usize)
    requires { (c < member_room) × (from < 65536) × (round < 65536) × (i < member_room) × (work_end ≤ length work.old) }
    ensures { work.new ≡ set (set work.old (births_at + c) (from * 65536 + round)) (chosen_at + c) i }
{
    work[BIRTHS + c] = from * 65536 + round as u32;
    work[CHOSEN + c] = i as u32;
}

// Whether k numbers from two places on are the same. A loop: slices' == takes 2 to 4 percent longer on deep chains.
fn same_numbers(work: &[u32], a: usize, b: usize, k: usize) -> bool
    requires { (a + k ≤ length work.now) × (b + k ≤ length work.now) }
    ensures { Tells result (numbers_from work.now a k ≡ numbers_from work.now b k) }
{
    for i in 0..k {
        if work[a + i] != work[b + i] {
            return false;
        }
    }
    true
}

// Whether the members at places i and j have as many lines, and the same.
fn equal_lines(work: &[u32], i: usize, j: usize) -> bool
    requires { LineFits work.now i × LineFits work.now j × (work_end ≤ length work.now) }
    ensures { Tells result (lines_held work.now i ≡ lines_held work.now j) }
{
    let k = work[LINE_TOTALS + i];
    if k != work[LINE_TOTALS + j] {
        return false;
    }
    same_numbers(
        work,
        LINES + work_layout::first_move(work, i),
        LINES + work_layout::first_move(work, j),
        k as usize,
    )
}

// Whether the members at places i and j have the same lines; one and the same member has.
fn same_lines(work: &[u32], i: usize, j: usize) -> bool
    requires { LineFits work.now i × LineFits work.now j × (work_end ≤ length work.now) }
    ensures { Tells result (lines_held work.now i ≡ lines_held work.now j) }
{
    if i == j {
        return true;
    }
    equal_lines(work, i, j)
}

// Whether class k came from class c and its chosen member has the lines of the member at place i.
fn is_part(work: &[u32], k: usize, c: u32, i: usize) -> bool
    requires { (k < member_room) × LineFits work.now i × LineFits work.now (chosen_in work.now k) × (work_end ≤ length work.now) }
    ensures { Tells result (PartFits work.now k c i) }
{
    if work[BIRTHS + k] / 65536 != c {
        return false;
    }
    let f = work[CHOSEN + k] as usize;
    same_lines(work, i, f)
}

// The first part of class c, among those from `old` on, that has the lines of the member at place i; count where there is none.
fn part_of(work: &[u32], c: u32, i: usize, old: usize, count: usize) -> usize
    requires { (old ≤ count) × (count ≤ member_room) × LineFits work.now i × ((k : ℕ) → k < count → LineFits work.now (chosen_in work.now k))
        × (work_end ≤ length work.now) }
    ensures { PartFound work.now c i old count result }
{
    for k in old..count {
        if is_part(work, k, c, i) {
            return k;
        }
    }
    count
}

// The class of the member at place i in the next round, where there were `old` classes before it and `count` now.
pub fn split_member(work: &mut [u32], round: usize, i: usize, old: usize, count: usize) -> usize
    requires { MemberReady work.old i old count × (round < 65536) }
    ensures { MemberSplit work.old round i old count work.new result }
{
    let c = work_layout::class_at(work, i);
    let f = work[CHOSEN + c as usize] as usize;
    if same_lines(work, i, f) {
        return count;
    }
    let k = part_of(work, c, i, old, count);
    work[CLASSES + i] = k as u32;
    if k < count {
        return count;
    }
    put_class(work, count, c, round, i);
    count + 1
}
