// The closure of every set of facts, in a table.
#![tactic(auto)]

ghost use Rattle.std.specs.Prelude.{◌≡◌, ◌≤◌, ◌<◌, ◌^◌, length, drop};
ghost use Rattle.set_closure.specs.Stores.{conclusions};
ghost use Rattle.set_closure.specs.RuleTable.{rules_in};
ghost use Rattle.closure_table.specs.ClosureTable.{Closures, GrownBy, ReadClosure};
ghost use Rattle.set_closure.specs.SheetLimits.{max_facts, max_rules};

use set_closure::fire;

// How many sets of that many facts there are.
pub fn sets_of(facts: u16) -> usize
    requires { facts ≤ max_facts }
    ensures { (result ≡ 2 ^ facts) × (result ≤ 2 ^ max_facts) }
{
    1 << facts
}

// The set with the first rule applied that adds to it; the set itself where none does.
fn grown(rules: &[u16; 64], n: usize, set: u16) -> u16
    requires { n ≤ max_rules }
    ensures { GrownBy (rules_in rules.now n) set result }
{
    for i in 0..n {
        let t = fire(rules[2 * i], rules[2 * i + 1], set);
        if t != set {
            return t;
        }
    }
    set
}

// Fills the table from the highest number down: a set that no rule adds to is its own closure, any other has the closure of
// what it grows to, which has a higher number.
pub fn fill_by_rules(rules: &[u16; 64], n: usize, facts: u16, work: &mut [u32])
    requires { (n ≤ max_rules) × (facts ≤ max_facts) × (2 ^ facts ≤ length work.old) × (conclusions (rules_in rules.now n) < 2 ^ facts) }
    ensures { Closures (rules_in rules.now n) 0 (2 ^ facts) work.new
        × (drop (2 ^ facts) work.new ≡ drop (2 ^ facts) work.old) }
{
    for s in (0..sets_of(facts)).rev() {
        let t = grown(rules, n, s as u16);
        work[s] = s as u32;
        work[s] = work[t as usize];
    }
}

// The entry of a set, cut to 16 digits: its closure, where the table has closures of sets of at most 16 facts.
pub fn closure_at(work: &[u32], s: u16) -> u16
    requires { s < length work.now }
    ensures { ReadClosure work.now s result }
{
    (work[s as usize] % 65536) as u16
}
