// Where a call begins: the starts that are its seeds, and the limits of each call as caps.
#![tactic(auto)]

ghost use Rattle.std.specs.Prelude.{◌≡◌, ◌<◌, get_or, set};
ghost use Rattle.sheet_types.specs.HeldSheet.{no_configuration};
ghost use Rattle.work_layout.specs.CallLimits.{limits, desk_limits};
ghost use Rattle.found_set.specs.Seeds.{CapsFit};
ghost use Rattle.found_set.specs.FoundSet.{limits_of};
ghost use Rattle.sheet_types.specs.SheetLimits.{max_starts};
ghost use Rattle.call_seeds.specs.Choice.{seeds_held, seed_count};

use collected_moves::Caps;
use sheet_types::{Configuration, Sheet};
use work_layout::{MEMBER_ROOM, MOVE_ROOM};

// How many members and moves the desk's call allows (document 02, card 3).
const DESK_MEMBERS: usize = 64;

const DESK_MOVES: usize = 512;

// The chosen starts as the first two seeds; the other starts stay.
fn chosen_seeds(starts: [Configuration; 16], left: usize, right: usize) -> [Configuration; 16]
    requires { (left < max_starts) × (right < max_starts) }
    ensures { result ≡ set (set starts 0 (get_or starts left no_configuration)) 1 (get_or starts right no_configuration) }
{
    let p = starts[left];
    let q = starts[right];
    let mut seeds = starts;
    seeds[0] = p;
    seeds[1] = q;
    seeds
}

// The seeds of a call: all starts, or the chosen ones in the first two places.
pub fn seeds_of(
    starts: [Configuration; 16],
    left: usize,
    right: usize,
    all: bool,
) -> [Configuration; 16]
    requires { (left < max_starts) × (right < max_starts) }
    ensures { result ≡ seeds_held starts left right all }
{
    if all {
        return starts;
    }
    chosen_seeds(starts, left, right)
}

// How many there are.
pub fn seed_count(count: u16, all: bool) -> usize
    ensures { result ≡ seed_count count all }
{
    if all { count as usize } else { 2 }
}

// Document 01's limits.
pub fn document_caps() -> Caps
    ensures { (limits_of result ≡ limits) × CapsFit result }
{
    Caps {
        members: MEMBER_ROOM,
        moves: MOVE_ROOM,
        threads: Sheet::MAX_THREADS as usize,
    }
}

// The desk's limits.
pub fn desk_caps() -> Caps
    ensures { (limits_of result ≡ desk_limits) × CapsFit result }
{
    Caps {
        members: DESK_MEMBERS,
        moves: DESK_MOVES,
        threads: Sheet::MAX_THREADS as usize,
    }
}
