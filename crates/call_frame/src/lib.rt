// What every call begins with: the sheet read, starts chosen, the work slice long enough, and the set of the starts worked out in
// it. A call goes on from the set that stands there, and clears the work slice at the end.
#![tactic(auto)]

ghost use Rattle.sheet_types.specs.WellFormed.{Admissible};
ghost use Rattle.sheet_types.specs.HeldSheet.{starts_in, sheet_of, nodes_in};
ghost use Rattle.sheet_types.specs.NodeTable.{nodes_of};
ghost use Rattle.sheet_reader.specs.NodeTables.{NodeTable};
ghost use Rattle.work_layout.specs.CallLimits.{limits};
ghost use Rattle.found_set.specs.Seeds.{CapsFit};
ghost use Rattle.found_set.specs.FoundSet.{limits_of, SeedsFit};
ghost use Rattle.call_seeds.specs.Choice.{ChoiceHeld, seeds_from};
ghost use Rattle.call_frame.specs.Begun.{BegunAs, ChoiceSet, SeedsBegun, ReadBegun, PairBegun, AllBegun};

use call_seeds::{document_caps, seed_count, seeds_of};
use collected_moves::Caps;
use found_set::SetSize;
use refusals::{Refusal, Refused};
use sheet_types::{Configuration, Sheet};
use work_layout::WORK_END;

// The numbers of members and of moves of the set that stands in the work slice, or the refusal, with the two starts that were chosen.
#[derive(Clone, Copy)]
pub struct Started {
    pub begun: Result<SetSize, Refused>,
    pub left: Configuration,
    pub right: Configuration,
}

// The same with the starts that are the seeds, of which there are `count`.
#[derive(Clone, Copy)]
pub struct AllStarted {
    pub begun: Result<SetSize, Refused>,
    pub starts: [Configuration; 16],
    pub count: usize,
}

// The set that grows from the first k seeds of a sheet that is held; 23 where the work slice is too short, 21 where the set passes
// a cap, and then the work slice is cleared.
fn begin_set(
    work: &mut [u32],
    sheet: Sheet,
    seeds: [Configuration; 16],
    k: usize,
    caps: Caps,
) -> Result<SetSize, Refused>
    requires { CapsFit caps × Admissible (sheet_of sheet)
        × NodeTable (nodes_in (nodes_of sheet.table) sheet.node_count) sheet.table × SeedsFit sheet seeds k }
    ensures { BegunAs (limits_of caps) (sheet_of sheet) (starts_in seeds k) work.old work.new result }
{
    if work.len() < WORK_END {
        return Err(Refusal::ShortWork.at(0));
    }
    let found = found_set::find_set(work, sheet, seeds, k, caps);
    let Some(size) = found else {
        work_layout::clear_work(work);
        return Err(Refusal::LargeSet.at(0));
    };
    Ok(size)
}

// The set that grows from two starts of a sheet that is held, or from all.
fn begin_seeds(
    work: &mut [u32],
    sheet: Sheet,
    left: usize,
    right: usize,
    all: bool,
    caps: Caps,
) -> AllStarted
    requires { CapsFit caps × ChoiceHeld sheet left right }
    ensures { SeedsBegun (limits_of caps) (sheet_of sheet) (seeds_from all left right (sheet_of sheet)) work.old work.new result }
{
    let seeds = seeds_of(sheet.starts, left, right, all);
    let count = seed_count(sheet.start_count, all);
    let begun = begin_set(work, sheet, seeds, count, caps);
    AllStarted {
        begun,
        starts: seeds,
        count,
    }
}

// The set that grows from two starts of the sheet that the bytes are, or from all, within caps. A choice that is not on the sheet is
// refused in either case.
fn begin(
    sheet: &[u8],
    left: usize,
    right: usize,
    all: bool,
    work: &mut [u32],
    caps: Caps,
) -> AllStarted
    requires { CapsFit caps }
    ensures { ReadBegun (limits_of caps) sheet.now left right all work.old work.new result }
{
    let held = match sheet_reader::read_choice(sheet, left, right) {
        Ok(held) => held,
        Err(refused) => {
            return AllStarted {
                begun: Err(refused),
                starts: [Configuration::EMPTY; 16],
                count: 0,
            };
        }
    };
    begin_seeds(work, held, left, right, all, caps)
}

// The set that grows from two starts of the sheet that the bytes are, within caps.
pub fn begin_pair(sheet: &[u8], left: usize, right: usize, work: &mut [u32], caps: Caps) -> Started
    requires { CapsFit caps }
    ensures { PairBegun (limits_of caps) sheet.now left right work.old work.new result }
{
    let seeded = begin(sheet, left, right, false, work, caps);
    Started {
        begun: seeded.begun,
        left: seeded.starts[0],
        right: seeded.starts[1],
    }
}

// The set that grows from all starts of the sheet that the bytes are, within caps: every sheet has a first start, so no choice is refused.
pub fn begin_all(sheet: &[u8], work: &mut [u32], caps: Caps) -> AllStarted
    requires { CapsFit caps }
    ensures { AllBegun (limits_of caps) sheet.now work.old work.new result }
{
    begin(sheet, 0, 0, true, work, caps)
}

// The public call for a set: that of two starts of a sheet, within document 01's limits, left in the work slice.
pub fn set_of_choice(
    sheet: &[u8],
    left: usize,
    right: usize,
    work: &mut [u32],
) -> Result<SetSize, Refused>
    ensures { ChoiceSet limits sheet.now left right work.old work.new result }
{
    let started = begin_pair(sheet, left, right, work, document_caps());
    started.begun
}
