// The moves of one member: a walk for each of its threads, with the others beside it.
#![tactic(auto)]

ghost use Rattle.std.specs.Prelude.{◌≡◌, ◌≤◌, ◌<◌};
ghost use Rattle.sheet_types.specs.NodeTable.{nodes_of};
ghost use Rattle.sheet_types.specs.HeldSheet.{configuration, nodes_in};
ghost use Rattle.threads_beside.specs.Ranks.{rank_of};
ghost use Rattle.walk_state.specs.WalkState.{NodesLent, MemberFits, Walking};
ghost use Rattle.member_moves.specs.MovesFound.{MovesFound, NextFound};

use sheet_types::{Configuration, TABLE_END};
use walk_state::{Basis, Walk};

// The moves of the thread at place i. An equal thread before it gives the same.
fn thread_moves(
    work: &mut [u32],
    table: &[u8; TABLE_END],
    b: Basis,
    e: Configuration,
    i: usize,
    s: Walk,
) -> Option<Walk>
    requires { NodesLent rank_of table.now b × Walking rank_of work.old b s
        × (s.top ≡ 0) × MemberFits b (configuration e) × (e.count ≤ 8) × (b.store ≡ e.store) × (i < e.count) }
    ensures { NextFound rank_of (nodes_in (nodes_of table.now) b.nodes) b
        work.old s (configuration e) i work.new result }
{
    let own = e.threads;
    if 0 < i && own[i - 1] == own[i] {
        return Some(s);
    }
    let thread = threads_beside::thread_beside(e, i);
    nodes_to_visit::push(work, 0, thread);
    let running = s.running;
    let shelf = s.shelf;
    let t = Walk {
        running,
        shelf,
        marks: s.marks,
        top: 1,
    };
    node_walk::walk(work, table, b, t)
}

// The moves of all threads of e.
pub fn moves_of(
    work: &mut [u32],
    table: &[u8; TABLE_END],
    b: Basis,
    e: Configuration,
    s: Walk,
) -> Option<Walk>
    requires { NodesLent rank_of table.now b × Walking rank_of work.old b s
        × (s.top ≡ 0) × (s.marks ≡ 0) × MemberFits b (configuration e) × (e.count ≤ 8) × (b.store ≡ e.store) }
    ensures { MovesFound rank_of (nodes_in (nodes_of table.now) b.nodes) b
        work.old s (configuration e) work.new result }
{
    let n = e.count as usize;
    let mut cur = s;
    for i in 0..n {
        cur = thread_moves(work, table, b, e, i, cur)?;
    }
    Some(cur)
}
