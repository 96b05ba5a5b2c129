// The set explored: the least unexplored member next, until none is left. Stores only grow along moves and additions, so
// members of one store come one after the other, and labels are worked out once for each store and asked set.
#![tactic(auto)]

ghost use Rattle.std.specs.Prelude.{◌≡◌, ◌+◌, ◌<◌, get_or};
ghost use Rattle.member_table.specs.Ranks.{rank_of};
ghost use Rattle.sheet_types.specs.NodeTable.{nodes_of};
ghost use Rattle.sheet_types.specs.HeldSheet.{nodes_in};
ghost use Rattle.ask_labels.specs.LabelShelf.{Shelved};
ghost use Rattle.walk_state.specs.WalkState.{NodesLent};
ghost use Rattle.exploration.specs.Exploration.{basis_of, Exploring};
ghost use Rattle.exploration.specs.ExplorationSteps.{store_in, MemberExplored, SetExplored};
ghost use Rattle.work_layout.specs.WorkLayout.{spans_at};

use ask_labels::Shelf;
use collected_moves::{Caps, Running};
use sheet_types::TABLE_END;
use walk_state::{Basis, Walk};
use work_layout::MEMBERS;

// What stays the same while the set is explored: how many facts and nodes the sheet has, and the caps.
#[derive(Clone, Copy)]
pub struct Plan {
    pub facts: u16,
    pub nodes: usize,
    pub caps: Caps,
}

// One member: its moves, and what is added.
fn explore_member(
    work: &mut [u32],
    table: &[u8; TABLE_END],
    plan: Plan,
    id: usize,
    s: Running,
    shelf: Shelf,
) -> Option<Walk>
    requires { NodesLent rank_of table.now (basis_of plan 0 0) × Exploring work.old plan s × (id < s.members)
        × (get_or work.old (spans_at + id) 0 ≡ 0) × Shelved work.old plan.facts (store_in work.old id) shelf }
    ensures { MemberExplored (nodes_in (nodes_of table.now) plan.nodes) plan work.old s id work.new result }
{
    let first = s.moves;
    let x = member_table::key_of(work, MEMBERS, s.members, id);
    let e = sheet_types::configuration_of(x);
    let caps = plan.caps;
    let b = Basis {
        facts: plan.facts,
        nodes: plan.nodes,
        store: e.store,
        first,
        caps,
    };
    let begun = Walk {
        running: s,
        shelf,
        marks: 0,
        top: 0,
    };
    let t = member_moves::moves_of(work, table, b, e, begun)?;
    let running = t.running;
    let kept = t.shelf;
    let u = third_rule::add_labels(work, b, running)?;
    unexplored_members::put_span(work, id, first, u.moves);
    Some(Walk {
        running: u,
        shelf: kept,
        marks: 0,
        top: 0,
    })
}

// Explores until every member is explored.
pub fn explore(work: &mut [u32], table: &[u8; TABLE_END], plan: Plan, s: Running) -> Option<Running>
    requires { NodesLent rank_of table.now (basis_of plan 0 0) × Exploring work.old plan s }
    ensures { SetExplored (nodes_in (nodes_of table.now) plan.nodes) plan work.old s work.new result }
{
    let mut run = s;
    let mut shelf = Shelf { sets: 0, used: 0 };
    let mut store: u32 = 65536;
    loop {
        let n = run.members;
        let j = unexplored_members::next_place(work, run.low, n);
        if j == n {
            return Some(run);
        }
        let id = member_table::id_at(work, MEMBERS, n, j);
        let d = member_table::store_of(work, MEMBERS, n, id) as u32;
        let fit = ask_labels::shelf_for(shelf, store, d);
        let from = Running {
            members: n,
            moves: run.moves,
            low: j,
        };
        let next = explore_member(work, table, plan, id, from, fit)?;
        run = next.running;
        shelf = next.shelf;
        store = d;
    }
}
