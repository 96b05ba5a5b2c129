// Nodes that move by themselves: a tell and an ask, with threads beside them. What they give is noted.
#![tactic(auto)]

ghost use Rattle.std.specs.Prelude.{◌≤◌, ◌<◌, ◌^◌, get_or};
ghost use Rattle.sheet_types.specs.Sheet.{tell};
ghost use Rattle.threads_beside.specs.Ranks.{rank_of};
ghost use Rattle.sheet_types.specs.NodeTable.{opened_of};
ghost use Rattle.threads_beside.specs.ThreadsBeside.{node_beside};
ghost use Rattle.walk_state.specs.WalkState.{VisitFits, Walking, TurnedAs};
ghost use Rattle.tell_ask_visits.specs.TellAskMoves.{AskTurned};
ghost use Rattle.sheet_types.specs.SheetLimits.{max_nodes};

use label_moves::note_labels;
use sheet_types::{Configuration, TABLE_END};
use threads_beside::NodeBeside;
use walk_state::{Basis, Walk};

// A tell of c: the thread is gone, the store joined with c.
pub fn visit_tell(work: &mut [u32], c: u16, b: Basis, e: NodeBeside, s: Walk) -> Option<Walk>
    requires { Walking rank_of work.old b s × VisitFits b (node_beside e) × (e.count ≤ 8) × (c < 2 ^ b.facts) }
    ensures { TurnedAs rank_of (tell c) b work.old s (node_beside e) work.new result }
{
    let sum = b.store | c;
    let told = closure_table::closure_at(work, sum);
    let least = closure_table::closure_at(work, 0);
    let threads = e.threads;
    let target = Configuration {
        store: told,
        count: e.count,
        threads,
    };
    let x = target.numbers();
    let running = move_entry::note(work, b.first, s.running, b.caps, least, x)?;
    let shelf = s.shelf;
    Some(Walk {
        running,
        shelf,
        marks: s.marks,
        top: s.top,
    })
}

// An ask of c, then node q: a move for each label.
pub fn visit_ask(
    work: &mut [u32],
    table: &[u8; TABLE_END],
    c: u16,
    q: usize,
    b: Basis,
    e: NodeBeside,
    s: Walk,
) -> Option<Walk>
    requires { Walking rank_of work.old b s × VisitFits b (node_beside e) × (e.count ≤ 8) × (c < 2 ^ b.facts) × (q < b.nodes)
        × (b.nodes ≤ max_nodes) × (get_or (opened_of table.now).counts q 0 ≤ 8) }
    ensures { AskTurned rank_of table.now c q b work.old s (node_beside e) work.new result }
{
    let l = b.caps;
    let at = threads_beside::put_beside(table, e, q, l.threads)?;
    let found = ask_labels::labels_at(work, b.facts, b.store, c, s.shelf);
    let running = note_labels(work, found.first, found.end, b, at, s.running)?;
    let shelf = found.shelf;
    Some(Walk {
        running,
        shelf,
        marks: s.marks,
        top: s.top,
    })
}
