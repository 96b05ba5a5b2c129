// Marked sets come up, fewer facts first and the lower number on a tie; a set that includes one found before is passed over.
#![tactic(auto)]

ghost use Rattle.std.specs.Prelude.{◌≡◌, cond, [], ◌∷◌, ◌+◌, ◌*◌, ◌≤◌, ◌<◌, ◌^◌, length, get_or, eqb};
ghost use Rattle.set_digits.specs.Frames.{SameOutside};
ghost use Rattle.set_digits.specs.OrderedSearch.{is_covered};
ghost use Rattle.set_digits.specs.SheetLimits.{max_facts};
ghost use Rattle.set_digits.specs.SetDigits.{words_of, mark, Marked};
ghost use Rattle.label_walk.specs.LabelWalk.{found_in, numbers_at, SetsAt, NoneBeyond, free_sets, KeptBetween};

use digit_lists::{fact_count, least_size, list_marked};
use set_digits::{clear_sets, count_marked, mark_all, words_of};

// A fact that no set has.
const NO_FACT: usize = 65536;

// The digits of the sets that include one of the n numbers from `at` on cleared.
fn clear_found(work: &mut [u32], left: usize, words: usize, at: usize, n: usize)
    requires { (words ≤ words_of max_facts) × (left + words ≤ at) × (at + n ≤ length work.old) }
    ensures { Marked left words work.old work.new
        (λ s. cond (is_covered (numbers_at work.old at n) s) 0 (mark work.old left s)) }
{
    for i in 0..n {
        let a = work[at + i] as usize;
        clear_sets(work, left, words, a, NO_FACT);
    }
}

// The marked sets come up by their number of facts, from one number that a marked set has to the next, each word of them in ascending order.
// Those that are found stand from `at` on, in the order in which they came up; then the sets that include them are no longer marked. Where
// none is marked any more the walk ends.
pub fn find_sets(work: &mut [u32], facts: u16, left: usize, at: usize) -> usize
    requires { (facts ≤ max_facts) × (left + words_of facts ≤ at) × NoneBeyond facts left work.old
        × (at + length (found_in (λ s. eqb (mark work.old left s) 1) facts) ≤ length work.old) }
    ensures { (result ≡ length (found_in (λ s. eqb (mark work.old left s) 1) facts))
        × (numbers_at work.new at result ≡ found_in (λ s. eqb (mark work.old left s) 1) facts)
        × SameOutside left (at + result) work.old work.new × KeptBetween (left + words_of facts) at work.old work.new }
{
    let words = words_of(facts);
    let mut n: usize = 0;
    while let Some(k) = least_size(work, left, words) {
        let m = list_marked(work, left, words, k, at, n);
        clear_found(work, left, words, at + n, m - n);
        n = m;
    }
    n
}

// How many sets do not include a.
pub fn count_free_of(facts: u16, a: usize) -> usize
    requires { (facts ≤ max_facts) × (a < 2 ^ facts) }
    ensures { result ≡ length (free_sets (a ∷ []) facts) }
{
    let k = fact_count(a) as u16;
    let sets: usize = 1 << facts;
    sets - (1 << (facts - k))
}

// How many sets include none of the n sets from `at` on.
pub fn count_free(work: &mut [u32], facts: u16, left: usize, at: usize, n: usize) -> usize
    requires { (facts ≤ max_facts) × (left + words_of facts ≤ at) × (at + n ≤ length work.old) × SetsAt facts at n work.old }
    ensures { (result ≡ length (free_sets (numbers_at work.old at n) facts)) × (result ≤ 2 ^ facts)
        × SameOutside left (left + words_of facts) work.old work.new }
{
    if n == 1 {
        let a = work[at] as usize;
        return count_free_of(facts, a);
    }
    let words = words_of(facts);
    mark_all(work, left, facts);
    clear_found(work, left, words, at, n);
    count_marked(work, left, words)
}
