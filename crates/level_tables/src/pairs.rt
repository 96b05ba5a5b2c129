// Tables of pairs of numbers. Pairs are numbered from 0 in the order in which they are entered. At a table's first place stands the
// number n of pairs that it has room for, then their count, then the pairs, two numbers each, and then 2 n slots: each is 0 or the
// number of a pair plus one. A pair is sought from its own slot on. That a pair which is there is found is not proved.
ghost use Rattle.std.specs.Prelude.{◌≡◌, ◌+◌, ◌*◌, ◌<◌, ◌≤◌};
ghost use Rattle.level_tables.specs.Numbers.{number_at};
ghost use Rattle.level_tables.specs.Pairs.{pair_place, count_of, first_of, second_of, zeroed, emptied, settled_at, Slot, Found, Appended, Entered};

use super::numbers;

const MOST_PAIRS: usize = 65536;

const FIRST: usize = 2;

const SECOND: usize = 3;

// Sets so many numbers from a place on to 0.
fn clear(w: &mut [usize], from: usize, n: usize)
    requires { (from ≤ 1048576) × (n ≤ 1048576) }
    ensures { w.new ≡ zeroed w.old from n }
{
    for i in 0..n {
        numbers::put(w, from + i, 0);
    }
}

// Makes a table without pairs that has room for so many.
pub fn make_empty(w: &mut [usize], base: usize, room: usize)
    requires { (base ≤ 1048576) × (room ≤ 65536) }
    ensures { w.new ≡ emptied w.old base room }
{
    clear(w, base, 4 * room + 2);
    numbers::put(w, base, room);
}

// How many pairs a table has.
pub fn count(w: &[usize], base: usize) -> usize
    requires { base ≤ 1048576 }
    ensures { result ≡ count_of w.now base }
{
    numbers::number_at(w, base + 1)
}

// The place of a number of pair i; for no such pair a place that no slice has.
fn pair_place(base: usize, i: usize, k: usize) -> usize
    requires { (base ≤ 1048576) × (k ≤ 3) }
    ensures { result ≡ pair_place base i k }
{
    if i < MOST_PAIRS {
        base + 2 * i + k
    } else {
        numbers::NONE
    }
}

// The first number of pair i.
pub fn first(w: &[usize], base: usize, i: usize) -> usize
    requires { base ≤ 1048576 }
    ensures { result ≡ first_of w.now base i }
{
    numbers::number_at(w, pair_place(base, i, FIRST))
}

// The second number of pair i.
pub fn second(w: &[usize], base: usize, i: usize) -> usize
    requires { base ≤ 1048576 }
    ensures { result ≡ second_of w.now base i }
{
    numbers::number_at(w, pair_place(base, i, SECOND))
}

// The slot at which the search for a pair begins.
fn own_slot(slots: usize, a: usize, b: usize) -> usize
    requires { 0 < slots }
    ensures { result < slots }
{
    (a % 1000003 * 7919 + b % 1000003 * 31 + b / 1000003 % 1000003) % slots
}

// The slot after this one, and the first after the last.
fn next_slot(slots: usize, s: usize) -> usize
    requires { s < slots }
    ensures { result < slots }
{
    if s + 1 < slots { s + 1 } else { 0 }
}

// Whether the slot at a place is free or this pair's.
fn settled(w: &[usize], base: usize, slot: usize, a: usize, b: usize) -> bool
    requires { base ≤ 1048576 }
    ensures { result ≡ settled_at w.now base slot a b }
{
    let held = numbers::number_at(w, slot);
    if held == 0 {
        return true;
    }
    first(w, base, held - 1) == a && second(w, base, held - 1) == b
}

// The place of a pair's slot, or of the free slot where it belongs; none where there is neither.
fn slot_of(w: &[usize], base: usize, a: usize, b: usize) -> Option<usize>
    requires { base ≤ 1048576 }
    ensures { Slot w.now base a b result }
{
    let room = numbers::number_at(w, base);
    if room == 0 || MOST_PAIRS < room {
        return None;
    }
    let slots = 2 * room;
    let mut s = own_slot(slots, a, b);
    for _ in 0..slots {
        let slot = base + 2 + slots + s;
        if settled(w, base, slot, a, b) {
            return Some(slot);
        }
        s = next_slot(slots, s);
    }
    None
}

// The number of a pair that is in the table, or none.
pub fn find(w: &[usize], base: usize, a: usize, b: usize) -> Option<usize>
    requires { base ≤ 1048576 }
    ensures { Found w.now base a b result }
{
    let slot = slot_of(w, base, a, b)?;
    numbers::number_at(w, slot).checked_sub(1)
}

// Stores a new pair, if there is room for it, and gives its number.
fn append(w: &mut [usize], base: usize, slot: usize, a: usize, b: usize) -> Option<usize>
    requires { base ≤ 1048576 }
    ensures { Appended w.old base slot a b w.new result }
{
    let n = count(w, base);
    if numbers::number_at(w, base) <= n {
        return None;
    }
    numbers::put(w, pair_place(base, n, FIRST), a);
    numbers::put(w, pair_place(base, n, SECOND), b);
    numbers::put(w, slot, n + 1);
    numbers::put(w, base + 1, n + 1);
    Some(n)
}

// The number of a pair, which is entered where it was not there; none where there is no room.
pub fn enter(w: &mut [usize], base: usize, a: usize, b: usize) -> Option<usize>
    requires { base ≤ 1048576 }
    ensures { Entered w.old base a b w.new result }
{
    let slot = slot_of(w, base, a, b)?;
    let held = numbers::number_at(w, slot);
    if held == 0 {
        return append(w, base, slot, a, b);
    }
    Some(held - 1)
}
