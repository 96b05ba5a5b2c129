// The table filled with the closure of every set.
#![tactic(auto)]

ghost use Rattle.std.specs.Prelude.{◌≡◌, ◌≤◌, ◌<◌, ◌^◌, length, drop};
ghost use Rattle.closure_table.specs.Frames.{SameOutside};
ghost use Rattle.closure_table.specs.Stores.{conclusions};
ghost use Rattle.closure_table.specs.RuleTable.{rules_in};
ghost use Rattle.closure_table.specs.ClosureTable.{Closures};
ghost use Rattle.conclusion_passes.specs.GatheredConclusions.{ConclusionsGathered};
ghost use Rattle.closure_table.specs.SheetLimits.{max_facts, max_rules};

use closure_table::{fill_by_rules, sets_of};
use conclusion_passes::{put_rules, spread_fact};

// The entry of each set: the conclusions of all rules whose premise is inside it, by one pass for each fact.
fn gather(rules: &[u16; 64], n: usize, facts: u16, work: &mut [u32])
    requires { (n ≤ max_rules) × (facts ≤ max_facts) × (2 ^ facts ≤ length work.old) }
    ensures { ConclusionsGathered (rules_in rules.now n) facts (2 ^ facts) work.new
        × SameOutside 0 (2 ^ facts) work.old work.new }
{
    let size = sets_of(facts);
    put_rules(rules, n, work, size);
    for fact in 0..facts {
        let blocks = sets_of(facts - fact - 1);
        spread_fact(work, blocks, fact);
    }
}

// Fills the table from the highest number down: a set grows by all rules whose premise is inside it at once.
fn fill_by_passes(rules: &[u16; 64], n: usize, facts: u16, work: &mut [u32])
    requires { (n ≤ max_rules) × (facts ≤ max_facts) × (2 ^ facts ≤ length work.old) × (conclusions (rules_in rules.now n) < 2 ^ facts) }
    ensures { Closures (rules_in rules.now n) 0 (2 ^ facts) work.new
        × (drop (2 ^ facts) work.new ≡ drop (2 ^ facts) work.old) }
{
    gather(rules, n, facts, work);
    for set in (0..sets_of(facts)).rev() {
        let t = set as u32 | work[set];
        work[set] = set as u32;
        work[set] = work[t as usize];
    }
}

// Fills the table with the closure of every set. Few rules are tried one by one for each set; passes over all sets take the
// same time for any number of rules.
pub fn fill_closures(rules: &[u16; 64], n: usize, facts: u16, work: &mut [u32])
    requires { (n ≤ max_rules) × (facts ≤ max_facts) × (2 ^ facts ≤ length work.old) × (conclusions (rules_in rules.now n) < 2 ^ facts) }
    ensures { Closures (rules_in rules.now n) 0 (2 ^ facts) work.new
        × (drop (2 ^ facts) work.new ≡ drop (2 ^ facts) work.old) }
{
    if n < 3 {
        fill_by_rules(rules, n, facts, work);
    } else {
        fill_by_passes(rules, n, facts, work);
    }
}
