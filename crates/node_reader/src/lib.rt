// The nodes of a sheet: their fields, their sets closed, and the threads that each opens to.
#![tactic(auto)]

ghost use Rattle.std.specs.Prelude.{◌≡◌, [], ◌≤◌, ◌<◌, length};
ghost use Rattle.set_closure.specs.SheetLimits.{max_facts, max_rules, min_nodes, max_nodes};
ghost use Rattle.sheet_types.specs.Reading.{node_at, nodes_at, records_from};
ghost use Rattle.node_opening.specs.Ranks.{LowerNames};
ghost use Rattle.set_closure.specs.RuleTable.{rules_in};
ghost use Rattle.sheet_types.specs.KindBytes.{kind_byte};
ghost use Rattle.sheet_types.specs.HeldSheet.{node_held};
ghost use Rattle.sheet_types.specs.NodeTable.{table_end};
ghost use Rattle.node_reader.specs.FirstFields.{closed_first};
ghost use Rattle.node_reader.specs.NodesFound.{NodeFound, NodePut, NodesFound};

use refusals::{Refusal, Refused};
use sheet_types::{FIRST_HIGHS, FIRST_LOWS, KINDS, Kind, MOVABLES, SECONDS, Sheet, TABLE_END};

const MAX_THREADS: usize = Sheet::MAX_THREADS as usize;

// The fields of a node, its set closed, and the place after it.
#[derive(Clone, Copy)]
pub struct NodeFields {
    pub kind: Kind,
    pub first: u16,
    pub second: u16,
    pub next: usize,
}

// So many nodes, the table that holds them, and the place after them.
#[derive(Drop)]
pub struct NodesRead {
    pub count: u16,
    pub table: [u8; TABLE_END],
    pub next: usize,
}

// The first field as it is held: the set of a tell and an ask is closed.
fn held_first(rules: &[u16; 64], rule_count: u16, kind: Kind, first: u16) -> u16
    requires { rule_count ≤ max_rules }
    ensures { result ≡ closed_first (rules_in rules.now rule_count) (kind_byte kind) first }
{
    match kind {
        Kind::Tell | Kind::Ask => set_closure::close(rules, usize::from(rule_count), first),
        Kind::Stop | Kind::Both | Kind::Either => first,
    }
}

// The fields of the node with this number, of so many nodes.
fn node_at(
    s: &[u8],
    facts: u16,
    rules: &[u16; 64],
    rule_count: u16,
    nodes: u16,
    number: u16,
    at: usize,
) -> Result<NodeFields, Refused>
    requires { (at ≤ length s.now) × (facts ≤ max_facts) × (rule_count ≤ max_rules) }
    ensures { NodeFound facts (rules_in rules.now rule_count) nodes number s.now at result }
{
    let kind = sheet_fields::kind_at(s, at)?;
    let first = sheet_fields::first_of_kind(s, kind.kind, facts, number, kind.next)?;
    let second = sheet_fields::second_of_kind(s, kind.kind, nodes, number, first.next)?;
    Ok(NodeFields {
        kind: kind.kind,
        first: held_first(rules, rule_count, kind.kind, first.value),
        second: second.value,
        next: second.next,
    })
}

// The fields of node k stored, and whether it can move, which the table has of the nodes it is made of.
fn put_node(table: &mut [u8; TABLE_END], k: usize, kind: Kind, first: u16, second: u16)
    requires { (k < max_nodes) × (second < 256) × (length table.old ≡ table_end) × LowerNames max_nodes (node_held (kind_byte kind) first second) }
    ensures { NodePut table.old k (kind_byte kind) first second table.new }
{
    let moves = movable_nodes::movable_of_kind(table, kind, first, second);
    table[KINDS + k] = u8::from(kind);
    table[FIRST_LOWS + k] = (first % 256) as u8;
    table[FIRST_HIGHS + k] = (first / 256) as u8;
    table[SECONDS + k] = second as u8;
    table[MOVABLES + k] = u8::from(moves);
}

// n nodes, each with the threads that it opens to.
fn nodes_from(
    s: &[u8],
    facts: u16,
    rules: &[u16; 64],
    rule_count: u16,
    n: u16,
    at: usize,
) -> Result<NodesRead, Refused>
    requires { (at ≤ length s.now) × (facts ≤ max_facts) × (rule_count ≤ max_rules) × (min_nodes ≤ n) × (n ≤ max_nodes) }
    ensures { NodesFound (records_from (node_at facts (rules_in rules.now rule_count) n s.now) n [] at) s.now result }
{
    let mut table = [0u8; TABLE_END];
    let mut next = at;
    for i in 0..n {
        let node = node_at(s, facts, rules, rule_count, n, i, next)?;
        let k = usize::from(i);
        let count = node_opening::open_of_kind(&mut table, node.kind, node.first, node.second, k);
        if MAX_THREADS < count {
            return Err(Refusal::WideNode.at(next));
        }
        put_node(&mut table, k, node.kind, node.first, node.second);
        next = node.next;
    }
    Ok(NodesRead {
        count: n,
        table,
        next,
    })
}

// The nodes and the threads that each opens to.
pub fn nodes_at(
    s: &[u8],
    facts: u16,
    rules: &[u16; 64],
    rule_count: u16,
    at: usize,
) -> Result<NodesRead, Refused>
    requires { (at ≤ length s.now) × (facts ≤ max_facts) × (rule_count ≤ max_rules) }
    ensures { NodesFound (nodes_at facts (rules_in rules.now rule_count) s.now at) s.now result }
{
    let n = sheet_fields::count_at(
        s,
        at,
        Sheet::MIN_NODES,
        Sheet::MAX_NODES,
        Refusal::WrongNodes,
    )?;
    nodes_from(s, facts, rules, rule_count, n.value, n.next)
}
