// Digits of sets spread to subsets: a set is marked where one that includes it was.
#![tactic(auto)]

ghost use Rattle.std.specs.Prelude.{◌≡◌, ◌+◌, ◌*◌, ◌/◌, ◌≤◌, ◌<◌, ◌^◌, length};
ghost use Rattle.std.specs.Int.Bits.{bit_and, bit_or};
ghost use Rattle.set_digits.specs.SheetLimits.{max_facts};
ghost use Rattle.set_digits.specs.SetDigits.{words_of};
ghost use Rattle.digit_spread.specs.DigitSpread.{WordSpread, SpreadDown, RunJoined, WordsJoined};

use set_digits::words_of;

// The digits of the places that have a fact put to the same places without it: `having` has those places, and the fact is worth `step`.
fn down_once(x: u32, having: u32, step: u32) -> u32
    requires { 0 < step }
    ensures { result ≡ bit_or x (bit_and x having / step) }
{
    x | ((x & having) / step)
}

// In one word: a place has a digit where one that includes it had.
fn spread_word(x: u32) -> u32
    ensures { WordSpread x result }
{
    let a = down_once(x, 0xaaaa_aaaa, 2);
    let b = down_once(a, 0xcccc_cccc, 4);
    let c = down_once(b, 0xf0f0_f0f0, 16);
    let d = down_once(c, 0xff00_ff00, 256);
    down_once(d, 0xffff_0000, 65536)
}

// In each word.
fn spread_words(work: &mut [u32], at: usize, words: usize)
    requires { (words ≤ words_of max_facts) × (at + words ≤ length work.old) }
    ensures { SpreadDown 5 at words work.old work.new }
{
    for w in 0..words {
        work[at + w] = spread_word(work[at + w]);
    }
}

// Two neighbouring runs of words: those of the second added to those of the first.
fn join_runs(work: &mut [u32], from: usize, half: usize)
    requires { (half ≤ words_of max_facts) × (from + 2 * half ≤ length work.old) }
    ensures { RunJoined from half half work.old work.new }
{
    for k in 0..half {
        work[from + k] |= work[from + half + k];
    }
}

// Between words, for the fact that is worth 2 to the power of b words: each word without it gets the digits of the word with it.
fn join_words(work: &mut [u32], at: usize, b: u16, blocks: usize)
    requires { (b ≤ max_facts) × (2 * blocks * 2 ^ b ≤ words_of max_facts) × (at + 2 * blocks * 2 ^ b ≤ length work.old) }
    ensures { WordsJoined b at (2 * blocks * 2 ^ b) work.old work.new }
{
    let half: usize = 1 << b;
    for q in 0..blocks {
        join_runs(work, at + 2 * q * half, half);
    }
}

// Each set marked of which a set that includes it was marked.
pub fn spread_down(work: &mut [u32], at: usize, facts: u16)
    requires { (facts ≤ max_facts) × (at + words_of facts ≤ length work.old) }
    ensures { SpreadDown max_facts at (words_of facts) work.old work.new }
{
    let words = words_of(facts);
    spread_words(work, at, words);
    for b in 0..facts.saturating_sub(5) {
        join_words(work, at, b, 1 << (facts - 6 - b));
    }
}
