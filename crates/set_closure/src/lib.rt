// The closure of a set of facts under the rules of a sheet.
#![tactic(auto)]

ghost use Rattle.std.specs.Prelude.{◌≡◌, ◌+◌, ◌*◌, ◌≤◌, ◌<◌, length};
ghost use Rattle.sheets.specs.Stores.{fire, pass, closure};
ghost use Rattle.sheets.specs.SheetLimits.{max_rules};
ghost use Rattle.set_closure.specs.RuleTable.{rule_in, rules_in};

// The set with one rule applied.
pub fn fire(premise: u16, conclusion: u16, set: u16) -> u16
    ensures { result ≡ fire (record { premise = premise; conclusion = conclusion }) set }
{
    if premise & set == premise {
        set | conclusion
    } else {
        set
    }
}

// The set after each of the first n rules once, in their order.
fn pass_once(rules: &[u16; 64], n: usize, set: u16) -> u16
    requires { n ≤ max_rules }
    ensures { result ≡ pass (rules_in rules.now n) set }
{
    let mut s = set;
    for i in 0..n {
        s = fire(rules[2 * i], rules[2 * i + 1], s);
    }
    s
}

// The closure of the set under the first n rules: passes until one changes nothing.
pub fn close(rules: &[u16; 64], n: usize, set: u16) -> u16
    requires { n ≤ max_rules }
    ensures { result ≡ closure (rules_in rules.now n) set }
{
    let mut s = set;
    loop {
        let t = pass_once(rules, n, s);
        if t == s {
            return s;
        }
        s = t;
    }
}
