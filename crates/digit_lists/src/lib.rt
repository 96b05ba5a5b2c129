// How many facts a set has, and the marked sets with so many facts listed.
#![tactic(auto)]

ghost use Rattle.std.specs.Prelude.{◌≡◌, ◌++◌, ◌+◌, ◌*◌, ◌≤◌, ◌<◌, length, take, drop};
ghost use Rattle.set_digits.specs.Frames.{SameOutside};
ghost use Rattle.set_digits.specs.OrderedSearch.{fact_count};
ghost use Rattle.set_digits.specs.SheetLimits.{max_facts};
ghost use Rattle.set_digits.specs.SetDigits.{words_of};
ghost use Rattle.digit_lists.specs.DigitLists.{PlacesOfSize, FirstLayer, LesserSize, LeastSize, SizeInWord, word_sets, marked_of_size};

// For each number of facts the places of a word that have so many.
const LAYERS: [u32; 6] = [1, 65814, 18224744, 375941248, 1753251840, 2147483648];

// How many facts a set has.
pub fn fact_count(s: usize) -> usize
    requires { s < 65536 }
    ensures { result ≡ fact_count 16 s }
{
    s.count_ones() as usize
}

// The places of a word that have j facts.
fn layer(j: usize) -> u32
    requires { j ≤ 5 }
    ensures { PlacesOfSize j result }
{
    LAYERS[j]
}

// The least number of facts that a place with digit 1 in x has.
fn first_layer(x: u32) -> usize
    requires { 0 < x }
    ensures { FirstLayer x result }
{
    for j in 0..5 {
        if x & layer(j) != 0 {
            return j;
        }
    }
    5
}

// The least number of facts of a marked set of word i, or that of the words before it where that is less.
fn lesser_size(x: u32, i: usize, least: Option<usize>) -> usize
    requires { (0 < x) × (i < words_of max_facts) }
    ensures { LesserSize x i least result }
{
    let k = fact_count(i) + first_layer(x);
    least.map_or(k, |l| k.min(l))
}

// The least number of facts of a marked set, where one is marked.
pub fn least_size(work: &[u32], left: usize, words: usize) -> Option<usize>
    requires { (words ≤ words_of max_facts) × (left + words ≤ length work.now) }
    ensures { LeastSize work.now left words result }
{
    let mut least = None;
    for i in 0..words {
        let x = work[left + i];
        if x != 0 {
            least = Some(lesser_size(x, i, least));
        }
    }
    least
}

// The sets of word i whose digit in x is 1, listed from `at + n` on; how many are listed then.
fn list_word(work: &mut [u32], i: usize, x: u32, at: usize, n: usize) -> usize
    requires { (i < words_of max_facts) × (at + n + length (word_sets i x) ≤ length work.old) }
    ensures { (result ≡ n + length (word_sets i x)) × (take result (drop at work.new) ≡ take n (drop at work.old) ++ word_sets i x)
        × SameOutside (at + n) (at + result) work.old work.new }
{
    let mut rest = x;
    let mut m = n;
    while rest != 0 {
        work[at + m] = (32 * i) as u32 + rest.trailing_zeros();
        m += 1;
        rest &= rest - 1;
    }
    m
}

// The marked sets of word i that have k facts.
fn size_in_word(x: u32, i: usize, k: usize) -> u32
    requires { i < words_of max_facts }
    ensures { SizeInWord x i k result }
{
    let high = fact_count(i);
    if k < high {
        return 0;
    }
    if 5 < k - high {
        return 0;
    }
    x & layer(k - high)
}

// The marked sets that have k facts, listed in ascending order from `at + n` on; how many are listed then.
pub fn list_marked(
    work: &mut [u32],
    left: usize,
    words: usize,
    k: usize,
    at: usize,
    n: usize,
) -> usize
    requires { (words ≤ words_of max_facts) × (left + words ≤ at) × (at + n + length (marked_of_size work.old left words k) ≤ length work.old) }
    ensures { (result ≡ n + length (marked_of_size work.old left words k))
        × (take result (drop at work.new) ≡ take n (drop at work.old) ++ marked_of_size work.old left words k)
        × SameOutside (at + n) (at + result) work.old work.new }
{
    let mut m = n;
    for i in 0..words {
        let x = work[left + i];
        if x != 0 {
            let y = size_in_word(x, i, k);
            m = list_word(work, i, y, at, m);
        }
    }
    m
}
