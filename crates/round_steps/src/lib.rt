// What a round is made of: the classes of round 0, a chosen member of each class, the listed members split, and the members whose
// lines can change in the next round.
#![tactic(auto)]

ghost use Rattle.std.specs.Prelude.{◌≡◌, ℕ, ◌+◌, ◌*◌, ◌≤◌, ◌<◌, false, length, get_or};
ghost use Rattle.work_layout.specs.SetLayout.{first_move};
ghost use Rattle.class_splits.specs.MemberLinesFound.{line_total};
ghost use Rattle.class_splits.specs.SetLinesFound.{InList};
ghost use Rattle.class_splits.specs.ClassedPlaces.{chosen_in, Classed};
ghost use Rattle.round_steps.specs.FirstRound.{StoreTold, FoundOne, Founding};
ghost use Rattle.round_steps.specs.ChosenMembers.{Rechosen};
ghost use Rattle.round_steps.specs.SplitRounds.{Splitting};
ghost use Rattle.round_steps.specs.AwakeMembers.{ListFits, Woken, NextListed};
ghost use Rattle.work_layout.specs.WorkLayout.{work_end, member_room, move_room};
ghost use Rattle.work_layout.specs.ClassLayout.{class_in};

use work_layout::{CHOSEN, CLASSES};

// Whether the member at place i has another store than the one before it.
fn new_store(work: &[u32], i: usize) -> bool
    requires { (i < member_room) × (work_end ≤ length work.now) }
    ensures { StoreTold work.now i result }
{
    i == 0 || work_layout::store_at(work, i - 1) != work_layout::store_at(work, i)
}

// The class of the member at place i in round 0, where `count` classes were found before it.
fn found_class(work: &mut [u32], i: usize, count: usize) -> usize
    requires { (i < member_room) × (count ≤ i) × (0 < i → 0 < count) × (work_end ≤ length work.old) }
    ensures { FoundOne work.old i count work.new result }
{
    if new_store(work, i) {
        class_splits::put_class(work, count, 0, 0, i);
        work[CLASSES + i] = count as u32;
        return count + 1;
    }
    work[CLASSES + i] = (count - 1) as u32;
    count
}

// Round 0: a class for each store.
pub fn found_classes(work: &mut [u32], n: usize) -> usize
    requires { (n ≤ member_room) × (work_end ≤ length work.old) }
    ensures { Founding work.old n work.new result }
{
    let mut count: usize = 0;
    for i in 0..n {
        count = found_class(work, i, count);
    }
    count
}

// Whether a listed member is the chosen one of its class.
fn chosen_listed(work: &[u32], list: &[u16; 512], k: usize) -> bool
    requires { (k ≤ member_room) × (work_end ≤ length work.now) × ((j : ℕ) → j < k → (get_or list.now j 0 < member_room) × (class_in work.now (get_or list.now j 0) < member_room)) }
    ensures { result ≡ false → (j : ℕ) → j < k → chosen_in work.now (class_in work.now (get_or list.now j 0))
        ≡ get_or list.now j 0 → ⊥ }
{
    for j in 0..k {
        let i = list[j] as usize;
        let c = work_layout::class_at(work, i);
        if work[CHOSEN + c as usize] == i as u32 {
            return true;
        }
    }
    false
}

// The last member that is not awake chosen in each class that has one.
pub fn choose_rest(work: &mut [u32], n: usize, awake: &[u64; 8])
    requires { (n ≤ member_room) × (work_end ≤ length work.old) × ((i : ℕ) → i < n → class_in work.old i < member_room) }
    ensures { Rechosen work.old n awake.now n work.new }
{
    for i in 0..n {
        if !place_sets::has_place(awake, i) {
            let c = work_layout::class_at(work, i);
            work[CHOSEN + c as usize] = i as u32;
        }
    }
}

// The next round: the listed members get their classes.
pub fn split_listed(
    work: &mut [u32],
    n: usize,
    list: &[u16; 512],
    k: usize,
    round: usize,
    old: usize,
) -> usize
    requires { (n ≤ member_room) × (work_end ≤ length work.old) × (round < 65536) × Classed work.old n old
        × ((j : ℕ) → j < n → first_move work.old j + line_total work.old j ≤ move_room) × ListFits n list.now k }
    ensures { Splitting work.old n round old work.new result (InList list.now k) }
{
    let mut count = old;
    for j in 0..k {
        count = class_splits::split_member(work, round, list[j] as usize, old, count);
    }
    count
}

// Every place listed.
pub fn list_all(list: &mut [u16], n: usize)
    requires { (n ≤ member_room) × (n ≤ length list.old) }
    ensures { (j : ℕ) → j < n → get_or list.new j 0 ≡ j }
{
    for i in 0..n {
        list[i] = i as u16;
    }
}

// The members that look at a listed one whose class is new, of which there are those from `old` on.
fn wake(
    work: &[u32],
    sets: &[u64],
    width: usize,
    old: usize,
    list: &[u16; 512],
    k: usize,
    awake: &mut [u64; 8],
)
    requires { (k ≤ member_room) × (work_end ≤ length work.now) × (width ≤ 8)
        × ((j : ℕ) → j < k → (get_or list.now j 0 < member_room) × (get_or list.now j 0 * width + width ≤ length sets.now)) }
    ensures { Woken work.now sets.now width old list.now k awake.new }
{
    for j in 0..k {
        let i = list[j] as usize;
        if old <= work_layout::class_at(work, i) as usize {
            place_sets::unite(sets, i * width, width, awake);
        }
    }
}

// The members whose lines can change in the next round, listed, and how many they are. In a class that has others one of these
// is chosen.
pub fn list_next(
    work: &mut [u32],
    sets: &[u64],
    width: usize,
    n: usize,
    old: usize,
    list: &mut [u16; 512],
    k: usize,
) -> usize
    requires { (n ≤ member_room) × (work_end ≤ length work.old) × (width ≤ 8) × (n ≤ 64 * width) × (n * width ≤ length sets.now)
        × ListFits n list.old k × ((count : ℕ) × Classed work.old n count) }
    ensures { NextListed work.old sets.now width n old list.old k work.new list.new result }
{
    let mut awake = [0u64; 8];
    wake(work, sets, width, old, list, k, &mut awake);
    let next = place_sets::list_places(&awake, width, n, list);
    if chosen_listed(work, list, next) {
        choose_rest(work, n, &awake);
    }
    next
}
