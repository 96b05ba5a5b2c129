// Nodes that were visited, marked with the threads beside them.
#![tactic(auto)]

ghost use Rattle.std.specs.Prelude.{◌≤◌, length};
ghost use Rattle.packing.specs.Packing.{PackedIn};
ghost use Rattle.member_table.specs.MemberTable.{part_at, Kept};
ghost use Rattle.walk_state.specs.ThreadsBeside.{node_for};
ghost use Rattle.node_marks.specs.NodeMarks.{SeenAs, MarkedAs};
ghost use Rattle.work_layout.specs.WorkLayout.{marks_at, pending_end};

use packing::Numbers;
use work_layout::{MARKS, PENDING};

// Whether a node with threads beside it is visited for the first time, and how many were visited.
#[derive(Drop)]
pub struct Marked {
    pub fresh: bool,
    pub marks: usize,
}

// Marks a node with threads beside it as visited. Where there is no room for a mark, all are forgotten first.
fn mark(work: &mut [u32], marks: usize, x: Numbers) -> Marked
    requires { Kept (part_at work.old marks_at) marks × PackedIn x }
    ensures { MarkedAs work.old marks (node_for x) work.new result }
{
    let found = member_table::enter_at(work, MARKS, marks, 512, x);
    let Some(e) = found else {
        let again = member_table::enter_at(work, MARKS, 0, 512, x);
        let Some(one) = again else {
            return Marked {
                fresh: true,
                marks: 0,
            };
        };
        return Marked {
            fresh: true,
            marks: one.members,
        };
    };
    Marked {
        fresh: marks < e.members,
        marks: e.members,
    }
}

// Whether the entry below, if there is one, has other threads. Any answer would do: it chooses what is marked.
fn alone(work: &[u32], top: usize, x: Numbers) -> bool
    requires { (top ≤ 64) × (pending_end ≤ length work.now) }
{
    if top == 0 {
        return true;
    }
    work[PENDING + 3 * top - 2] != x.b || work[PENDING + 3 * top - 1] != x.c
}

// A node that is made of others and alone with its threads among those to visit is marked. Any other is taken as new: with the
// same threads it comes up once.
pub fn see(work: &mut [u32], kind: u8, marks: usize, top: usize, x: Numbers) -> Marked
    requires { Kept (part_at work.old marks_at) marks × PackedIn x × (top ≤ 64) × (pending_end ≤ length work.old) }
    ensures { SeenAs work.old marks (node_for x) work.new result }
{
    if kind < 3 {
        return Marked { fresh: true, marks };
    }
    if !alone(work, top, x) {
        return Marked { fresh: true, marks };
    }
    mark(work, marks, x)
}
