// Digits of sets in the words of a slice: every set marked, sets cleared, marks counted.
#![tactic(auto)]

ghost use Rattle.std.specs.Prelude.{◌≡◌, cond, not, ◌&&◌, ◌+◌, ◌*◌, ◌≤◌, ◌<◌, ◌^◌, length, eqb, ltb};
ghost use Rattle.search_laws.specs.FactsOutside.{outside};
ghost use Rattle.search_laws.specs.Stores.{includes};
ghost use Rattle.search_laws.specs.SheetLimits.{max_facts};
ghost use Rattle.set_digits.specs.SetDigits.{bit, words_of, mark, PlacesAbove, FirstWord, Marked, marked_sets, none_marked};

// For each place of a word, the places that include it.
const ABOVE: [u32; 32] = [
    4294967295, 2863311530, 3435973836, 2290649224, 4042322160, 2694881440, 3233857728, 2155905152,
    4278255360, 2852170240, 3422604288, 2281736192, 4026593280, 2684395520, 3221274624, 2147516416,
    4294901760, 2863267840, 3435921408, 2290614272, 4042260480, 2694840320, 3233808384, 2155872256,
    4278190080, 2852126720, 3422552064, 2281701376, 4026531840, 2684354560, 3221225472, 2147483648,
];

// The places that include b.
fn above(b: usize) -> u32
    requires { b < 32 }
    ensures { PlacesAbove b result }
{
    ABOVE[b]
}

// The digits of x that y has not.
fn without(x: u32, y: u32) -> u32
    ensures { result ≡ outside y x }
{
    (y | x) - y
}

// How many words have a digit for every set of so many facts.
pub fn words_of(facts: u16) -> usize
    requires { facts ≤ max_facts }
    ensures { (result ≡ words_of facts) × (result ≤ words_of max_facts) }
{
    1 << facts.saturating_sub(5)
}

// The first word with the digit of every set of so many facts.
fn first_word(facts: u16) -> u32
    requires { facts ≤ max_facts }
    ensures { FirstWord facts result }
{
    if facts < 5 {
        let sets: u32 = 1 << facts;
        return (1 << sets) - 1;
    }
    u32::MAX
}

// Every set of so many facts marked, and no other.
pub fn mark_all(work: &mut [u32], at: usize, facts: u16)
    requires { (facts ≤ max_facts) × (at + words_of facts ≤ length work.old) }
    ensures { Marked at (words_of facts) work.old work.new (λ s. bit (ltb s (2 ^ facts))) }
{
    let words = words_of(facts);
    let full = first_word(facts);
    work[at..at + words].fill(full);
}

// The digits of the sets that include a and not b cleared.
pub fn clear_sets(work: &mut [u32], at: usize, words: usize, a: usize, b: usize)
    requires { (words ≤ words_of max_facts) × (at + words ≤ length work.old) }
    ensures { Marked at words work.old work.new
        (λ s. cond (includes s a && not (includes s b)) 0 (mark work.old at s)) }
{
    let with = above(a % 32);
    let stay = above(b % 32);
    let high = a / 32;
    let other = b / 32;
    let mut w = high;
    while w < words {
        let gone = if w & other == other {
            without(with, stay)
        } else {
            with
        };
        work[at + w] = without(work[at + w], gone);
        w = high | (w + 1);
    }
}

// The digits of the words from `from` on that belong to sets which include d and not c, in the words from `to` on.
pub fn copy_between(work: &mut [u32], from: usize, to: usize, words: usize, d: usize, c: usize)
    requires { (words ≤ words_of max_facts) × (from + words ≤ to) × (to + words ≤ length work.old) }
    ensures { Marked to words work.old work.new
        (λ s. cond (includes s d && not (includes s c)) (mark work.old from s) 0) }
{
    let with = above(d % 32);
    let asked = above(c % 32);
    let high = d / 32;
    let other = c / 32;
    for w in 0..words {
        let all = if w & high == high { with } else { 0 };
        let kept = if w & other == other {
            without(all, asked)
        } else {
            all
        };
        work[to + w] = work[from + w] & kept;
    }
}

// The digits of the words from `from` on that those from `to` on have not, put there.
pub fn turn_within(work: &mut [u32], from: usize, to: usize, words: usize)
    requires { (words ≤ words_of max_facts) × (from + words ≤ to) × (to + words ≤ length work.old) }
    ensures { Marked to words work.old work.new
        (λ s. cond (eqb (mark work.old to s) 1) 0 (mark work.old from s)) }
{
    for w in 0..words {
        work[to + w] = without(work[from + w], work[to + w]);
    }
}

// Whether no set is marked.
pub fn none_marked(work: &[u32], at: usize, words: usize) -> bool
    requires { (words ≤ words_of max_facts) × (at + words ≤ length work.now) }
    ensures { result ≡ none_marked work.now at words }
{
    work[at..at + words].iter().all(|x| *x == 0)
}

// How many sets are marked.
pub fn count_marked(work: &[u32], at: usize, words: usize) -> usize
    requires { (words ≤ words_of max_facts) × (at + words ≤ length work.now) }
    ensures { result ≡ length (marked_sets work.now at words) }
{
    let mut n: u32 = 0;
    for w in 0..words {
        n += work[at + w].count_ones();
    }
    n as usize
}
