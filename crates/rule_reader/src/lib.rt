// The rules of a sheet.
#![tactic(auto)]

ghost use Rattle.std.specs.Prelude.{◌≤◌, length};
ghost use Rattle.sheet_types.specs.SheetLimits.{max_facts, max_rules};
ghost use Rattle.rule_reader.specs.RuleLoop.{RulesFrom, RulesFound};

use refusals::{Refusal, Refused};
use sheet_types::{Field, Sheet};

// n rules, put over those that stand there.
fn rules_from(
    s: &[u8],
    facts: u16,
    n: u16,
    at: usize,
    rules: &mut [u16; 64],
) -> Result<Field, Refused>
    requires { (at ≤ length s.now) × (facts ≤ max_facts) × (n ≤ max_rules) }
    ensures { RulesFrom facts n s.now at rules.old rules.new result }
{
    let mut next = at;
    for i in 0..n {
        let premise = sheet_fields::set_at(s, facts, next)?;
        let conclusion = sheet_fields::set_at(s, facts, premise.next)?;
        let k = 2 * usize::from(i);
        rules[k] = premise.value;
        rules[k + 1] = conclusion.value;
        next = conclusion.next;
    }
    Ok(Field { value: n, next })
}

// The rules, after their count. The array has those that were read, also beside a refusal, and zeros after them.
pub fn rules_at(s: &[u8], facts: u16, at: usize, rules: &mut [u16; 64]) -> Result<Field, Refused>
    requires { (at ≤ length s.now) × (facts ≤ max_facts) }
    ensures { RulesFound facts s.now at rules.new result }
{
    *rules = [0; 64];
    let n = sheet_fields::count_at(s, at, 0, Sheet::MAX_RULES, Refusal::ManyRules)?;
    rules_from(s, facts, n.value, n.next, rules)
}
