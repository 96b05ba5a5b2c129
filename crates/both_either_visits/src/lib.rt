// Nodes that are made of others: a both and an either, with threads beside them. Their parts are to be visited.
#![tactic(auto)]

ghost use Rattle.std.specs.Prelude.{ℕ, ◌+◌, ◌≤◌, ◌<◌, length, get_or};
ghost use Rattle.threads_beside.specs.Ranks.{Part, rank_of};
ghost use Rattle.sheet_types.specs.NodeTable.{opened_of};
ghost use Rattle.threads_beside.specs.ThreadsBeside.{node_beside};
ghost use Rattle.nodes_to_visit.specs.NodesToVisit.{PendingPacked};
ghost use Rattle.walk_state.specs.WalkState.{VisitFits, Walking};
ghost use Rattle.both_either_visits.specs.StoredParts.{BothTurned, EitherTurned};
ghost use Rattle.nodes_to_visit.specs.WorkLayout.{pending_end};
ghost use Rattle.sheet_types.specs.SheetLimits.{max_nodes};

use part_entry::push_beside;
use sheet_types::TABLE_END;
use threads_beside::NodeBeside;
use walk_state::{Basis, Walk};

// A both: each part is to be visited with the other opened beside it.
pub fn visit_both(
    work: &mut [u32],
    table: &[u8; TABLE_END],
    p: usize,
    q: usize,
    b: Basis,
    e: NodeBeside,
    s: Walk,
) -> Option<Walk>
    requires { Walking rank_of work.old b s × VisitFits b (node_beside e) × (e.count ≤ 8) × Part rank_of b.nodes e.node p
        × Part rank_of b.nodes e.node q × (rank_of e.node + s.top < 64) × (b.nodes ≤ max_nodes)
        × (get_or (opened_of table.now).counts p 0 ≤ 8) × (get_or (opened_of table.now).counts q 0 ≤ 8) }
    ensures { BothTurned rank_of table.now p q b work.old s (node_beside e) work.new result }
{
    let t = push_beside(work, table, p, q, b, e, s)?;
    push_beside(work, table, q, p, b, e, t)
}

// An either: each of its nodes is to be visited, the other dropped.
pub fn visit_either(work: &mut [u32], p: usize, q: usize, e: NodeBeside, s: Walk) -> Walk
    requires { (pending_end ≤ length work.old) × (e.count ≤ 8) × Part rank_of 64 e.node p × Part rank_of 64 e.node q
        × (rank_of e.node + s.top < 64) × ((i : ℕ) → i < s.top → PendingPacked work.old i) }
    ensures { EitherTurned rank_of p q work.old s (node_beside e) work.new result }
{
    let n = nodes_to_visit::rank_of(e.node as usize);
    let one = nodes_to_visit::enter(work, s.top, n, p as u16, e);
    let two = nodes_to_visit::enter(work, one, n, q as u16, e);
    let running = s.running;
    let shelf = s.shelf;
    Walk {
        running,
        shelf,
        marks: s.marks,
        top: two,
    }
}
