// A move of the member in hand is noted: its target entered as a member, the move put among those collected, each once.
#![tactic(auto)]

ghost use Rattle.std.specs.Prelude.{◌≡◌};
ghost use Rattle.packing.specs.Packing.{stands_for, PackedIn};
ghost use Rattle.collected_moves.specs.CollectedMoves.{Collecting, NotedAs, EnteredAs};
ghost use Rattle.collected_moves.specs.LowestUnexplored.{lowest_of};

use collected_moves::{Caps, Running};
use packing::Numbers;
use work_layout::{MEMBERS, MOVES};

// The lowest place that may have an unexplored member, where the one at this place may be new.
fn lowest(s: Running, n: usize, at: usize) -> usize
    ensures { result ≡ lowest_of s n at }
{
    if n == s.members { s.low } else { s.low.min(at) }
}

// A move of the member in hand, with this label to the configuration of these numbers. Gives the numbers then, or none where a cap is
// passed.
pub fn note(
    work: &mut [u32],
    first: usize,
    s: Running,
    l: Caps,
    label: u16,
    x: Numbers,
) -> Option<Running>
    requires { Collecting work.old first s l × PackedIn x }
    ensures { NotedAs work.old first s l (record { label = label; target = stands_for x }) work.new result }
{
    let e = member_table::enter_at(work, MEMBERS, s.members, l.members, x)?;
    let y = (label as u32) * 65536 + e.id as u32;
    let from = MOVES + first;
    let until = MOVES + s.moves;
    let most = MOVES + l.moves;
    let end = number_lists::enter_number(work, from, until, most, y)?;
    let moves = end - MOVES;
    let low = lowest(s, e.members, e.at);
    Some(Running {
        members: e.members,
        moves,
        low,
    })
}

// A configuration of these numbers entered as a member, with no move. Gives the numbers then, or none where a cap is passed.
pub fn note_member(
    work: &mut [u32],
    first: usize,
    s: Running,
    l: Caps,
    x: Numbers,
) -> Option<Running>
    requires { Collecting work.old first s l × PackedIn x }
    ensures { EnteredAs work.old first s l (stands_for x) work.new result }
{
    let e = member_table::enter_at(work, MEMBERS, s.members, l.members, x)?;
    let low = lowest(s, e.members, e.at);
    Some(Running {
        members: e.members,
        moves: s.moves,
        low,
    })
}
