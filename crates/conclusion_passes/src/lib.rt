// Conclusions gathered in the entry of each set: those of the rules whose premise it is, then those of its subsets by one pass over
// all entries for each fact.
#![tactic(auto)]

ghost use Rattle.std.specs.Prelude.{◌≡◌, ◌++◌, ◌+◌, ◌*◌, ◌≤◌, ◌<◌, ◌^◌, length, drop, replicate};
ghost use Rattle.closure_table.specs.Frames.{SameOutside};
ghost use Rattle.closure_table.specs.RuleTable.{rules_in};
ghost use Rattle.conclusion_passes.specs.GatheredConclusions.{ConclusionsGathered, United, Spread, put_rule};
ghost use Rattle.closure_table.specs.SheetLimits.{max_rules, max_facts};

use closure_table::sets_of;

// The conclusion added to the entry of the premise, where that is a set of the table.
fn put_rule(work: &mut [u32], size: usize, premise: u16, conclusion: u16)
    requires { size ≤ length work.old }
    ensures { work.new ≡ put_rule size premise conclusion work.old }
{
    let p = usize::from(premise);
    if p < size {
        work[p] |= u32::from(conclusion);
    }
}

// The entry of each set: the conclusions of the rules whose premise it is.
pub fn put_rules(rules: &[u16; 64], n: usize, work: &mut [u32], size: usize)
    requires { (n ≤ max_rules) × (size ≤ length work.old) }
    ensures { ConclusionsGathered (rules_in rules.now n) 0 size work.new
        × SameOutside 0 size work.old work.new }
{
    work[..size].fill(0);
    for i in 0..n {
        put_rule(work, size, rules[2 * i], rules[2 * i + 1]);
    }
}

// Two neighbouring runs of entries: those of the first added to those of the second.
fn spread_block(work: &mut [u32], from: usize, half: usize)
    requires { (from + 2 * half ≤ length work.old) × (from + 2 * half ≤ 2 ^ max_facts) }
    ensures { United from half half work.old work.new }
{
    for k in 0..half {
        work[from + half + k] |= work[from + k];
    }
}

// The entry of each set that has the fact, with that of the same set without the fact added.
fn spread(work: &mut [u32], blocks: usize, fact: u16)
    requires { (fact < max_facts) × (blocks ≤ 2 ^ max_facts) × (2 * blocks * 2 ^ fact ≤ length work.old) × (2 * blocks * 2 ^ fact ≤ 2 ^ max_facts) }
    ensures { Spread fact (2 * blocks * 2 ^ fact) work.old work.new }
{
    let half = sets_of(fact);
    for q in 0..blocks {
        spread_block(work, 2 * q * half, half);
    }
}

// The same for fact 0: each entry at an odd place, with the one before it.
// Kept a loop of its own: the compiler makes vector code of it.
fn spread_pairs(work: &mut [u32], blocks: usize)
    requires { (blocks ≤ 2048) × (2 * blocks ≤ length work.old) }
    ensures { Spread 0 (2 * blocks * 2 ^ 0) work.old work.new }
{
    for q in 0..blocks {
        work[2 * q + 1] |= work[2 * q];
    }
}

// The same for fact 1: the last two of each four entries, with the first two.
// Kept a loop of its own: the compiler makes vector code of it.
fn spread_fours(work: &mut [u32], blocks: usize)
    requires { (blocks ≤ 1024) × (4 * blocks ≤ length work.old) }
    ensures { Spread 1 (2 * blocks * 2 ^ 1) work.old work.new }
{
    for q in 0..blocks {
        work[4 * q + 2] |= work[4 * q];
        work[4 * q + 3] |= work[4 * q + 1];
    }
}

// The same for any fact.
pub fn spread_fact(work: &mut [u32], blocks: usize, fact: u16)
    requires { (fact < max_facts) × (blocks ≤ 2 ^ max_facts) × (2 * blocks * 2 ^ fact ≤ length work.old) × (2 * blocks * 2 ^ fact ≤ 2 ^ max_facts) }
    ensures { Spread fact (2 * blocks * 2 ^ fact) work.old work.new }
{
    match fact {
        0 => spread_pairs(work, blocks),
        1 => spread_fours(work, blocks),
        _ => spread(work, blocks, fact),
    }
}
