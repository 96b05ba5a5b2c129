// One part of a both among the nodes to visit, with the threads of the other part beside it.
#![tactic(auto)]

ghost use Rattle.std.specs.Prelude.{◌≡◌, ℕ, ◌≤◌, ◌<◌, length, get_or};
ghost use Rattle.nodes_to_visit.specs.Lists.{NotFalling};
ghost use Rattle.sheet_types.specs.SheetLimits.{max_nodes};
ghost use Rattle.threads_beside.specs.Ranks.{rank_of};
ghost use Rattle.sheet_types.specs.NodeTable.{opened_of, movables_of};
ghost use Rattle.sheet_types.specs.HeldSheet.{opened_in};
ghost use Rattle.threads_beside.specs.ThreadsBeside.{node_beside};
ghost use Rattle.nodes_to_visit.specs.NodesToVisit.{PendingPacked};
ghost use Rattle.part_entry.specs.PartEntry.{beside_of, PartAs};
ghost use Rattle.nodes_to_visit.specs.WorkLayout.{pending_end};

use sheet_types::TABLE_END;
use threads_beside::NodeBeside;
use walk_state::{Basis, Walk};

// Node p is to be visited, with the threads of node q beside it too, where it can move at all.
pub fn push_beside(
    work: &mut [u32],
    table: &[u8; TABLE_END],
    p: usize,
    q: usize,
    b: Basis,
    e: NodeBeside,
    s: Walk,
) -> Option<Walk>
    requires { (p < max_nodes) × (q < max_nodes) × (s.top < 64) × (pending_end ≤ length work.old) × (e.count ≤ b.caps.threads) × (b.caps.threads ≤ 8)
        × (length (node_beside e).threads ≡ e.count) × (get_or (opened_of table.now).counts q 0 ≤ 8) × NotFalling (node_beside e).threads
        × ((i : ℕ) → i < s.top → PendingPacked work.old i) }
    ensures { PartAs rank_of (get_or (movables_of table.now) p 0)
        (beside_of p (opened_in (opened_of table.now) q) (node_beside e))
        b.caps.threads (rank_of e.node) work.old s work.new result }
{
    if sheet_types::movable_in(table, p) == 0 {
        return Some(s);
    }
    let l = b.caps;
    let at = threads_beside::put_beside(table, e, q, l.threads)?;
    let rank = nodes_to_visit::rank_of(e.node as usize);
    let next = nodes_to_visit::enter(work, s.top, rank, p as u16, at);
    let running = s.running;
    let shelf = s.shelf;
    Some(Walk {
        running,
        shelf,
        marks: s.marks,
        top: next,
    })
}
