// The seeds of a set entered as its first members, none of them explored.
#![tactic(auto)]

ghost use Rattle.std.specs.Prelude.{ℕ, ◌≤◌, ◌<◌, length, get_or};
ghost use Rattle.sheet_types.specs.HeldSheet.{configuration, no_configuration, starts_in};
ghost use Rattle.collected_moves.specs.CollectedMoves.{Collecting};
ghost use Rattle.seed_members.specs.Seeds.{CapsFit, Cleared, SeedEntered, Seeded};
ghost use Rattle.work_layout.specs.WorkLayout.{work_end};
ghost use Rattle.sheet_types.specs.SheetLimits.{max_starts};

use collected_moves::{Caps, Running};
use sheet_types::Configuration;
use work_layout::{MOVES, SPANS};

// No member is explored.
pub fn clear_spans(work: &mut [u32])
    requires { work_end ≤ length work.old }
    ensures { Cleared work.old work.new }
{
    work[SPANS..MOVES].fill(0);
}

// A seed entered as a member.
fn enter_seed(work: &mut [u32], seed: Configuration, caps: Caps, s: Running) -> Option<Running>
    requires { Collecting work.old 0 s caps × (seed.count ≤ 8) }
    ensures { SeedEntered work.old s caps (configuration seed) work.new result }
{
    let count = usize::from(seed.count);
    if caps.threads < count {
        return None;
    }
    move_entry::note_member(work, 0, s, caps, seed.numbers())
}

// The first k seeds entered as members.
// Kept an array with a count beside it: fixed memory, starts are held so.
pub fn enter_seeds(
    work: &mut [u32],
    seeds: [Configuration; 16],
    k: usize,
    caps: Caps,
) -> Option<Running>
    requires { (work_end ≤ length work.old) × CapsFit caps × (k ≤ max_starts) × ((i : ℕ) → i < k → (get_or seeds i no_configuration).count ≤ 8) }
    ensures { Seeded work.old caps (starts_in seeds k) work.new result }
{
    let mut run = Running {
        members: 0,
        moves: 0,
        low: 0,
    };
    for i in 0..k {
        run = enter_seed(work, seeds[i], caps, run)?;
    }
    Some(run)
}
