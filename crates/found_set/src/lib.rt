// The set of a comparison in the work slice: every member once and in order, each with its moves, or that it passes a cap.
#![tactic(auto)]

ghost use Rattle.std.specs.Prelude.{◌≤◌, length};
ghost use Rattle.sheet_types.specs.WellFormed.{Admissible};
ghost use Rattle.sheet_types.specs.HeldSheet.{starts_in, sheet_of, nodes_in};
ghost use Rattle.sheet_types.specs.NodeTable.{nodes_of};
ghost use Rattle.exploration.specs.NodeTables.{NodeTable};
ghost use Rattle.exploration.specs.Exploration.{Exploring};
ghost use Rattle.exploration.specs.ExplorationSteps.{SetExplored};
ghost use Rattle.seed_members.specs.Seeds.{CapsFit};
ghost use Rattle.found_set.specs.FoundSet.{limits_of, plan_of, SeedsFit, SetFound};
ghost use Rattle.collected_moves.specs.WorkLayout.{work_end};

use collected_moves::{Caps, Running};
use exploration::Plan;
use sheet_types::{Configuration, Sheet};

// The numbers of members and of moves.
#[derive(Clone, Copy, PartialEq, Eq, Debug)]
pub struct SetSize {
    pub members: usize,
    pub moves: usize,
}

// Explores from the members there are, with what is lent of the sheet.
fn explore_sheet(work: &mut [u32], sheet: Sheet, caps: Caps, s: Running) -> Option<Running>
    requires { Admissible (sheet_of sheet) × NodeTable (nodes_in (nodes_of sheet.table) sheet.node_count) sheet.table
        × Exploring work.old (plan_of sheet caps) s }
    ensures { SetExplored (nodes_in (nodes_of sheet.table) sheet.node_count) (plan_of sheet caps) work.old s work.new result }
{
    let table = sheet.table;
    let n = sheet.node_count as usize;
    let plan = Plan {
        facts: sheet.facts,
        nodes: n,
        caps,
    };
    exploration::explore(work, &table, plan, s)
}

// The set that grows from the first k seeds; none where it passes a cap.
pub fn find_set(
    work: &mut [u32],
    sheet: Sheet,
    seeds: [Configuration; 16],
    k: usize,
    caps: Caps,
) -> Option<SetSize>
    requires { (work_end ≤ length work.old) × CapsFit caps × Admissible (sheet_of sheet)
        × NodeTable (nodes_in (nodes_of sheet.table) sheet.node_count) sheet.table × SeedsFit sheet seeds k }
    ensures { SetFound (sheet_of sheet) (limits_of caps) (starts_in seeds k) work.old work.new result }
{
    let rules = sheet.rules;
    closure_filling::fill_closures(&rules, sheet.rule_count as usize, sheet.facts, work);
    seed_members::clear_spans(work);
    let s = seed_members::enter_seeds(work, seeds, k, caps)?;
    let t = explore_sheet(work, sheet, caps, s)?;
    set_order::arrange(work, t.members);
    Some(SetSize {
        members: t.members,
        moves: t.moves,
    })
}
