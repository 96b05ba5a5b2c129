// The moves that the labels of an ask give are noted.
#![tactic(auto)]

ghost use Rattle.std.specs.Prelude.{◌≤◌, ◌<◌, length};
ghost use Rattle.std.specs.Int.Bits.{bit_or};
ghost use Rattle.threads_beside.specs.ThreadsBeside.{node_beside};
ghost use Rattle.collected_moves.specs.CollectedMoves.{Collecting, NotedAs};
ghost use Rattle.walk_state.specs.NotedInWalk.{NotedAllAs};
ghost use Rattle.label_moves.specs.LabelMoves.{label_move, label_moves, LabelsStand};

use collected_moves::Running;
use sheet_types::Configuration;
use threads_beside::NodeBeside;
use walk_state::Basis;

// The move with label a to the threads of e, at the store joined with a.
fn note_label(work: &mut [u32], a: u16, b: Basis, e: NodeBeside, s: Running) -> Option<Running>
    requires { Collecting work.old b.first s b.caps × (e.count ≤ 8) × (bit_or b.store a < length work.old) }
    ensures { NotedAs work.old b.first s b.caps (label_move work.old b.store (node_beside e).threads a)
        work.new result }
{
    let sum = b.store | a;
    let store = closure_table::closure_at(work, sum);
    let threads = e.threads;
    let target = Configuration {
        store,
        count: e.count,
        threads,
    };
    let x = target.numbers();
    move_entry::note(work, b.first, s, b.caps, a, x)
}

// The moves with the labels that stand from `from` on, before `end`.
pub fn note_labels(
    work: &mut [u32],
    from: usize,
    end: usize,
    b: Basis,
    e: NodeBeside,
    s: Running,
) -> Option<Running>
    requires { Collecting work.old b.first s b.caps × (e.count ≤ 8) × LabelsStand work.old b.facts b.store from end }
    ensures { NotedAllAs work.old b.first s b.caps
        (label_moves work.old b.store (node_beside e).threads from end) work.new result }
{
    let mut run = s;
    for i in from..end {
        let a = (work[i] % 65536) as u16;
        run = note_label(work, a, b, e, run)?;
    }
    Some(run)
}
