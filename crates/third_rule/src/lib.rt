// The third rule of the set: where a member has moves with labels a and b, a strictly below b, the target of the first with b
// added is a member.
#![tactic(auto)]

ghost use Rattle.std.specs.Prelude.{◌≡◌, ◌+◌, ◌≤◌, ◌<◌, length};
ghost use Rattle.third_rule.specs.ThirdRule.{Standing, NewLabel, Added, AllAdded, AtPlace, BeforePlace, ByFirst, label_at, is_first};
ghost use Rattle.work_layout.specs.WorkLayout.{moves_at, move_room};

use collected_moves::Running;
use walk_state::Basis;
use work_layout::{MEMBERS, MOVES};

// The label of the move at place i.
fn label_at(work: &[u32], i: usize) -> u16
    requires { (i < move_room) × (moves_at + i < length work.now) }
    ensures { result ≡ label_at work.now i }
{
    (work[MOVES + i] / 65536) as u16
}

// The target of move i with a label added, where the move's own label is inside it. A target whose store has it already is
// a member.
fn add_to(work: &mut [u32], i: usize, label: u16, b: Basis, s: Running) -> Option<Running>
    requires { Standing work.old b s × (b.first ≤ i) × (i < s.moves) × NewLabel work.old b s (i + 1) label }
    ensures { Added (AtPlace work.old i label) b work.old s work.new result }
{
    let a = label_at(work, i);
    if a & label != a {
        return Some(s);
    }
    let id = (work[MOVES + i] % 65536) as usize;
    let x = member_table::key_of(work, MEMBERS, s.members, id);
    let u = sheet_types::configuration_of(x);
    let store = u.store;
    if label & store == label {
        return Some(s);
    }
    let sum = u.add(work, label);
    move_entry::note_member(work, b.first, s, b.caps, sum.numbers())
}

// The targets of the moves before place j with a label added.
fn add_to_all(work: &mut [u32], j: usize, label: u16, b: Basis, s: Running) -> Option<Running>
    requires { Standing work.old b s × (b.first ≤ j) × (j ≤ s.moves) × NewLabel work.old b s j label }
    ensures { Added (BeforePlace work.old b.first j label) b work.old s work.new result }
{
    let mut run = s;
    for i in b.first..j {
        run = add_to(work, i, label, b, run)?;
    }
    Some(run)
}

// Whether the move at place j is the first with its label.
fn first_with_label(work: &[u32], first: usize, j: usize) -> bool
    requires { (first ≤ j) × (j < move_room) × (moves_at + j < length work.now) }
    ensures { result ≡ is_first work.now first j }
{
    if j == first {
        return true;
    }
    label_at(work, j - 1) != label_at(work, j)
}

// The additions of the label at place j, at the first move with it.
fn add_label_of(work: &mut [u32], j: usize, b: Basis, s: Running) -> Option<Running>
    requires { Standing work.old b s × (b.first ≤ j) × (j < s.moves) }
    ensures { Added (ByFirst work.old b.first s j) b work.old s work.new result }
{
    if first_with_label(work, b.first, j) {
        let label = label_at(work, j);
        return add_to_all(work, j, label, b, s);
    }
    Some(s)
}

// All additions of the moves in hand. Each label is added once.
pub fn add_labels(work: &mut [u32], b: Basis, s: Running) -> Option<Running>
    requires { Standing work.old b s }
    ensures { AllAdded b work.old s work.new result }
{
    let mut run = s;
    for j in b.first..s.moves {
        run = add_label_of(work, j, b, run)?;
    }
    Some(run)
}
