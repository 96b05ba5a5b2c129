// The rules of a sheet at the beginning of a slice, and closures worked out from them.
#![tactic(auto)]

ghost use Rattle.std.specs.Prelude.{◌≡◌, ◌+◌, ◌≤◌, ◌<◌, length, get_or};
ghost use Rattle.set_closure.specs.Frames.{SameOutside};
ghost use Rattle.set_closure.specs.Stores.{conclusions, closure};
ghost use Rattle.set_closure.specs.RuleTable.{rules_in};
ghost use Rattle.set_closure.specs.SheetLimits.{max_rules};
ghost use Rattle.held_rules.specs.HeldRules.{least_at, rules_end, held_count, held_rules, RulesPut, RulesHeld, GrownBy, ReadClosure};

const MAX_RULES: usize = 32;

// What stands for the premise where there is no rule, and where the rules are looked at to see whether there are few.
const NO_PREMISE: u32 = 65536;

const FEW_RULES: usize = 8;

// The first n rules put at the beginning of the slice, and rules that add nothing behind them.
fn put_rules(rules: &[u16; 64], n: usize, work: &mut [u32])
    requires { (n ≤ max_rules) × (least_at ≤ length work.old) }
    ensures { RulesPut (rules_in rules.now n) work.new × SameOutside 0 least_at work.old work.new }
{
    for i in 0..MAX_RULES {
        let (premise, conclusion) = if i < n {
            (rules[2 * i] as u32, rules[2 * i + 1] as u32)
        } else {
            (NO_PREMISE, 0)
        };
        work[i] = premise;
        work[MAX_RULES + i] = conclusion;
    }
}

// How many rules are read.
fn held_count(work: &[u32]) -> usize
    requires { least_at ≤ length work.now }
    ensures { result ≡ held_count work.now }
{
    if work[0] == NO_PREMISE {
        return 0;
    }
    if work[FEW_RULES] == NO_PREMISE {
        return FEW_RULES;
    }
    MAX_RULES
}

// The set with the conclusion of every rule whose premise it includes; n rules are read.
fn grown(work: &[u32], n: usize, set: u32) -> u32
    requires { (least_at ≤ length work.now) × (n ≡ held_count work.now) × (n ≤ max_rules) }
    ensures { GrownBy (held_rules work.now) set result }
{
    let mut t = set;
    for i in 0..n {
        let premise = work[i];
        let conclusion = work[MAX_RULES + i];
        let more = if premise & set == premise {
            conclusion
        } else {
            0
        };
        t |= more;
    }
    t
}

// The closure of the set: passes until one adds nothing.
pub fn close(work: &[u32], set: u32) -> u32
    requires { least_at ≤ length work.now }
    ensures { result ≡ closure (held_rules work.now) set }
{
    let n = held_count(work);
    let mut s = set;
    loop {
        let t = grown(work, n, s);
        if t == s {
            return s;
        }
        s = t;
    }
}

// The closure of a set, cut to 16 digits.
pub fn closure_of(work: &[u32], s: u16) -> u16
    requires { least_at ≤ length work.now }
    ensures { ReadClosure work.now s result }
{
    (close(work, s as u32) % 65536) as u16
}

// All conclusions together.
pub fn concluded(work: &[u32]) -> u32
    requires { least_at ≤ length work.now }
    ensures { result ≡ conclusions (held_rules work.now) }
{
    let n = held_count(work);
    let mut all: u32 = 0;
    for i in 0..n {
        all |= work[MAX_RULES + i];
    }
    all
}

// Where the least store stands, behind the rules.
pub const LEAST: usize = 64;

// The first n rules at the beginning of the slice, and the least store behind them.
pub fn hold_rules(rules: &[u16; 64], n: usize, work: &mut [u32])
    requires { (n ≤ max_rules) × (rules_end ≤ length work.old) }
    ensures { RulesHeld (rules_in rules.now n) work.new × SameOutside 0 rules_end work.old work.new }
{
    put_rules(rules, n, work);
    work[LEAST] = close(work, 0);
}

// The number at the place of the least store.
pub fn least_of(work: &[u32]) -> u32
    requires { rules_end ≤ length work.now }
    ensures { result ≡ get_or work.now least_at 0 }
{
    work[LEAST]
}
