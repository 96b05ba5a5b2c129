// The walk: the last node to visit is visited by its kind, until none is left.
#![tactic(auto)]

ghost use Rattle.std.specs.Prelude.{[], ◌∷◌, ◌+◌, ◌≤◌, ◌<◌};
ghost use Rattle.threads_beside.specs.Ranks.{rank_of};
ghost use Rattle.sheet_types.specs.NodeTable.{nodes_of};
ghost use Rattle.sheet_types.specs.HeldSheet.{nodes_in};
ghost use Rattle.threads_beside.specs.ThreadsBeside.{node_beside};
ghost use Rattle.walk_state.specs.WalkState.{NodesLent, VisitFits, Walking, Turned};
ghost use Rattle.node_walk.specs.NodeVisits.{WalkedAs};

use node_marks::see;
use sheet_types::TABLE_END;
use threads_beside::NodeBeside;
use walk_state::{Basis, Walk};

// The node of e by its kind.
fn visit_kind(
    work: &mut [u32],
    table: &[u8; TABLE_END],
    b: Basis,
    e: NodeBeside,
    s: Walk,
) -> Option<Walk>
    requires { NodesLent rank_of table.now b × Walking rank_of work.old b s
        × VisitFits b (node_beside e) × (e.count ≤ 8) × (rank_of e.node + s.top < 64) }
    ensures { Turned rank_of (nodes_in (nodes_of table.now) b.nodes) b work.old s (node_beside e ∷ []) work.new result }
{
    let k = e.node as usize;
    let kind = sheet_types::kind_in(table, k);
    let first = sheet_types::first_in(table, k);
    let second = sheet_types::second_in(table, k);
    match kind {
        0 => Some(s),
        1 => tell_ask_visits::visit_tell(work, first, b, e, s),
        2 => tell_ask_visits::visit_ask(work, table, first, second, b, e, s),
        3 => both_either_visits::visit_both(work, table, first as usize, second, b, e, s),
        _ => Some(both_either_visits::visit_either(work, first as usize, second, e, s)),
    }
}

// The last node to visit: passed over where it was visited before.
fn visit(work: &mut [u32], table: &[u8; TABLE_END], b: Basis, s: Walk) -> Option<Walk>
    requires { NodesLent rank_of table.now b × Walking rank_of work.old b s × (0 < s.top) }
    ensures { Turned rank_of (nodes_in (nodes_of table.now) b.nodes) b work.old s [] work.new result }
{
    let top = s.top - 1;
    let x = nodes_to_visit::pending_at(work, top);
    let e = threads_beside::node_of(x);
    let kind = sheet_types::kind_in(table, e.node as usize);
    let m = see(work, kind, s.marks, top, x);
    let running = s.running;
    let shelf = s.shelf;
    let t = Walk {
        running,
        shelf,
        marks: m.marks,
        top,
    };
    if !m.fresh {
        return Some(t);
    }
    visit_kind(work, table, b, e, t)
}

// Visits until no node is left to visit.
pub fn walk(work: &mut [u32], table: &[u8; TABLE_END], b: Basis, s: Walk) -> Option<Walk>
    requires { NodesLent rank_of table.now b × Walking rank_of work.old b s }
    ensures { WalkedAs rank_of (nodes_in (nodes_of table.now) b.nodes) b work.old s work.new result }
{
    let mut cur = s;
    while 0 < cur.top {
        cur = visit(work, table, b, cur)?;
    }
    Some(cur)
}
