// Sets of places, as digits of words of 64: places put in, sets united, the places of a set listed.
#![tactic(auto)]

ghost use Rattle.std.specs.Prelude.{◌≡◌, ◌+◌, ◌*◌, ◌/◌, ◌≤◌, ◌<◌, min, length, eqb};
ghost use Rattle.place_sets.specs.PlaceSets.{place_digit, with_place, United, Listed};

// Place i put into the set that begins at word `at`.
pub fn add_place(sets: &mut [u64], at: usize, i: usize)
    requires { at + i / 64 < length sets.old }
    ensures { sets.new ≡ with_place sets.old at i }
{
    sets[at + i / 64] |= 1 << (i % 64);
}

// The set of `width` words that begins at word `at` united into another.
pub fn unite(sets: &[u64], at: usize, width: usize, into: &mut [u64; 8])
    requires { (width ≤ 8) × (at + width ≤ length sets.now) }
    ensures { United sets.now at width into.old into.new }
{
    for k in 0..width {
        into[k] |= sets[at + k];
    }
}

// The places below n of word k of the set, listed behind those of the words before it.
fn list_word(set: &[u64], k: usize, n: usize, list: &mut [u16], from: usize) -> usize
    requires { (k < 8) × (k < length set.now) × (n ≤ 512) × (n ≤ length list.old) × Listed set.now (min n (64 * k)) list.old list.old from }
    ensures { (from ≤ result) × Listed set.now (min n (64 * k + 64)) list.old list.new result }
{
    let mut rest = set[k];
    let mut a = from;
    while rest != 0 {
        let i = 64 * k + u64::trailing_zeros(rest) as usize;
        if i < n {
            list[a] = i as u16;
            a += 1;
        }
        rest &= rest - 1;
    }
    a
}

// The places below n of a set of `width` words, listed in ascending order, and how many they are; the list behind them stays.
pub fn list_places(set: &[u64; 8], width: usize, n: usize, list: &mut [u16; 512]) -> usize
    requires { (width ≤ 8) × (n ≤ 512) × (n ≤ 64 * width) }
    ensures { Listed set.now n list.old list.new result }
{
    let mut a: usize = 0;
    for k in 0..width {
        a = list_word(set, k, n, list, a);
    }
    a
}

// Whether place i is in a set.
pub fn has_place(set: &[u64; 8], i: usize) -> bool
    requires { i < 512 }
    ensures { result ≡ eqb (place_digit set.now 0 i) 1 }
{
    (set[i / 64] >> (i % 64)) % 2 == 1
}
