// The rules of a sheet at the beginning of a slice, and behind them a digit for each set that is closed under them.
#![tactic(auto)]

ghost use Rattle.std.specs.Prelude.{◌≤◌, length};
ghost use Rattle.set_digits.specs.Frames.{SameOutside};
ghost use Rattle.held_rules.specs.RuleTable.{rules_in};
ghost use Rattle.set_digits.specs.SheetLimits.{max_facts, max_rules};
ghost use Rattle.held_rules.specs.HeldRules.{RulesHeld};
ghost use Rattle.closed_digits.specs.ClosedDigits.{closed_at, table_end, ClosedMarked};

use held_rules::hold_rules;
use set_digits::{clear_sets, mark_all, words_of};

// Where the digits begin, and the first place after them.
pub const CLOSED: usize = 65;

pub const TABLE_END: usize = 193;

// Every set of so many facts marked, and then for each rule those cleared that include its premise and not its conclusion.
fn mark_closed(rules: &[u16; 64], n: usize, facts: u16, work: &mut [u32])
    requires { (n ≤ max_rules) × (facts ≤ max_facts) × (table_end ≤ length work.old) }
    ensures { ClosedMarked (rules_in rules.now n) facts work.new
        × SameOutside closed_at table_end work.old work.new }
{
    let words = words_of(facts);
    mark_all(work, CLOSED, facts);
    for i in 0..n {
        let premise = usize::from(rules[2 * i]);
        let conclusion = usize::from(rules[2 * i + 1]);
        clear_sets(work, CLOSED, words, premise, conclusion);
    }
}

// The rules and the digits of the closed sets.
pub fn hold_table(rules: &[u16; 64], n: usize, facts: u16, work: &mut [u32])
    requires { (n ≤ max_rules) × (facts ≤ max_facts) × (table_end ≤ length work.old) }
    ensures { RulesHeld (rules_in rules.now n) work.new
        × ClosedMarked (rules_in rules.now n) facts work.new × SameOutside 0 table_end work.old work.new }
{
    hold_rules(rules, n, work);
    mark_closed(rules, n, facts, work);
}
