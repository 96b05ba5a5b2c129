// What the second checker takes from a sheet that was read, worked out by itself: closures, constraints and nodes.
ghost use Rattle.std.specs.Prelude.{◌≡◌, ◌<◌};

use super::constraints;
use level_tables::{areas, numbers, threads};
use sheet_types::{COUNTS, Sheet, TABLE_END, THREADS};

const NODES: usize = 64;

const PASSES: usize = 13;

// A field of a rule, where each rule has two.
fn field_at(rules: &[u16], i: usize) -> usize {
    rules.get(i).map_or(numbers::NONE, |x| usize::from(*x))
}

// The set with a rule's conclusion, if it has the premise.
fn fired(premise: usize, conclusion: usize, set: usize) -> usize {
    if constraints::includes(set, premise) {
        set | conclusion
    } else {
        set
    }
}

// The set after each rule was tried once.
fn tried_once(rules: &[u16], n: u16, set: usize) -> usize {
    let mut s = set;
    for i in 0..usize::from(n) {
        s = fired(field_at(rules, 2 * i), field_at(rules, 2 * i + 1), s);
    }
    s
}

// The closure of a set: a pass that changes anything adds one of twelve facts, so thirteen passes are enough.
fn closure(rules: &[u16], n: u16, set: usize) -> usize {
    let mut s = set;
    for _ in 0..PASSES {
        s = tried_once(rules, n, s);
    }
    s
}

// Stores the closures of so many sets.
fn put_closures(w: &mut [usize], rules: &[u16], n: u16, sets: usize) {
    for s in 0..sets {
        numbers::put(w, s, closure(rules, n, s));
    }
}

// Puts a set that is its own closure at the end of the constraints; none where there is no room.
fn put_constraint(w: &mut [usize], s: usize) -> Option<()> {
    if numbers::number_at(w, s) != s {
        return Some(());
    }
    let n = super::constraint_count(w);
    if constraints::MOST_CONSTRAINTS <= n {
        return None;
    }
    numbers::put(w, areas::CONSTRAINTS + 1 + n, s);
    numbers::put(w, areas::CONSTRAINTS, n + 1);
    Some(())
}

// Stores the constraints among so many sets; none where there are too many.
fn put_constraints(w: &mut [usize], sets: usize) -> Option<()> {
    numbers::put(w, areas::CONSTRAINTS, 0);
    for s in 0..sets {
        put_constraint(w, s)?;
    }
    Some(())
}

// Stores a node's four numbers.
fn put_node(w: &mut [usize], k: usize, kind: u8, first: u16, second: usize, list: usize) {
    numbers::put_in_entry(w, areas::NODES, k, 0, usize::from(kind));
    numbers::put_in_entry(w, areas::NODES, k, 1, usize::from(first));
    numbers::put_in_entry(w, areas::NODES, k, 2, second);
    numbers::put_in_entry(w, areas::NODES, k, 3, list);
}

// The threads that node k opens to.
fn opened_list(table: &[u8; TABLE_END], k: usize) -> Option<usize>
    requires { k < 64 }
{
    threads::list_of(table, THREADS + 8 * k, table[COUNTS + k])
}

// Takes in node k; none where it opens to more threads than a list has.
fn take_node(w: &mut [usize], k: usize, table: &[u8; TABLE_END]) -> Option<()>
    requires { k < 64 }
{
    let list = opened_list(table, k)?;
    let kind = sheet_types::kind_in(table, k);
    let first = sheet_types::first_in(table, k);
    let second = sheet_types::second_in(table, k);
    put_node(w, k, kind, first, second, list);
    Some(())
}

// Takes in every node.
fn take_nodes(w: &mut [usize], table: &[u8; TABLE_END]) -> Option<()> {
    for k in 0..NODES {
        take_node(w, k, table)?;
    }
    Some(())
}

// Takes in a sheet that was read; none where there is no room for its constraints.
pub(crate) fn take_in(sheet: Sheet, w: &mut [usize]) -> Option<()> {
    let rules = sheet.rules;
    let table = sheet.table;
    let facts = sheet.facts;
    if 12 < facts {
        return None;
    }
    let sets = 1usize << facts as usize;
    put_closures(w, &rules, sheet.rule_count, sets);
    take_nodes(w, &table)?;
    put_constraints(w, sets)
}
