// A report held to the levels of document 01's plain counterpart ("Rounds"), worked out over every configuration that the two
// starts reach. Nothing but the sheet that was read is taken from the comparing call; what it returned and the members in its
// answer bytes are what is checked. That the levels are document 01's is tried and not proved.
#![tactic(auto)]

mod classes;
mod members;

ghost use Rattle.std.specs.Prelude.{◌<◌, ◌≤◌, IfSome, IsTrue};
ghost use Rattle.level_check.specs.Checking.{Placed, Agreed};

use level_tables::{areas, pairs};
use sheet_types::{Configuration, Sheet};

const MOST_LEVELS: usize = 4096;

// What a report says: SAME or DIFF, its round, and the places of both starts.
#[derive(Clone, Copy)]
pub struct Claim {
    pub same: bool,
    pub round: usize,
    pub left: usize,
    pub right: usize,
}

// The report agrees (with how many configurations, and the last level that differs from the one before); the sheet is too
// large to check; or which part of the report is wrong.
#[derive(Clone, Copy)]
pub enum Checked {
    Agree(usize, usize),
    TooLarge,
    Members,
    Places,
    Verdict,
    Round,
    Classes,
}

// The first level that is equal to the next; the first that separates the starts, or none; the first that agrees with the
// next on the members listed, or none.
#[derive(Clone, Copy)]
struct Levels {
    last: usize,
    apart: Option<usize>,
    round: Option<usize>,
}

// Whether two configurations are in different classes.
fn differ(w: &[usize], p: usize, q: usize) -> bool {
    classes::class_of(w, p) != classes::class_of(w, q)
}

// The levels of n configurations after the first, until one is equal to the next; m members are listed. None where there is
// no room.
fn refine(w: &mut [usize], n: usize, m: usize, left: usize, right: usize) -> Option<Levels>
    ensures { IfSome result (λ levels. levels.last < 4096) }
{
    let mut apart = differ(w, left, right).then_some(0);
    let mut round = None;
    for level in 0..MOST_LEVELS {
        let changed = classes::next_level(w, n)?;
        let shown_as_before = members::show_members(w, m);
        round = round.or(shown_as_before.then_some(level));
        if !changed {
            return Some(Levels {
                last: level,
                apart,
                round,
            });
        }
        apart = apart.or(differ(w, left, right).then_some(level + 1));
    }
    None
}

// Every level; none where there is no room.
fn all_levels(w: &mut [usize], n: usize, m: usize, left: usize, right: usize) -> Option<Levels>
    ensures { IfSome result (λ levels. levels.last < 4096) }
{
    classes::first_level(w, n)?;
    members::show_members(w, m);
    refine(w, n, m, left, right)
}

// Verdict, round and classes held to the levels of n configurations. The level that a report should name is the first at which
// the starts are separated, or else at which the members' classes stay.
fn judge(claim: Claim, found: Levels, classes: bool, n: usize) -> Checked
    requires { (n ≤ 4096) × (found.last < 4096) × Placed claim }
    ensures { Agreed claim result }
{
    if claim.same != found.apart.is_none() {
        return Checked::Verdict;
    }
    if found.apart.or(found.round) != Some(claim.round) {
        return Checked::Round;
    }
    if found.last < claim.round {
        return Checked::Round;
    }
    if !classes {
        return Checked::Classes;
    }
    Checked::Agree(n, found.last)
}

// Whether both starts stand where the report says, among m members.
fn both_placed(w: &[usize], m: usize, claim: Claim, left: usize, right: usize) -> bool
    requires { m ≤ 512 }
    ensures { IsTrue result → Placed claim }
{
    members::stands_at(w, m, claim.left, left) && members::stands_at(w, m, claim.right, right)
}

// The report held to the levels over n configurations that are all there.
fn check_levels(
    w: &mut [usize],
    n: usize,
    answer: &[u8],
    claim: Claim,
    left: usize,
    right: usize,
) -> Checked
    requires { n ≤ 4096 }
    ensures { Agreed claim result }
{
    let Some(m) = members::list_members(answer, w) else {
        return Checked::Members;
    };
    if !both_placed(w, m, claim, left, right) {
        return Checked::Places;
    }
    let Some(found) = all_levels(w, n, m, left, right) else {
        return Checked::TooLarge;
    };
    judge(claim, found, members::classes_agree(w, m), n)
}

// A report on two starts of a sheet held to what the levels give.
pub fn check(
    sheet: Sheet,
    left: Configuration,
    right: Configuration,
    claim: Claim,
    answer: &[u8],
) -> Checked
    ensures { Agreed claim result }
{
    let mut w = [0usize; areas::ROOM];
    let Some(reached) = level_reach::reach(sheet, left, right, &mut w) else {
        return Checked::TooLarge;
    };
    let n = pairs::count(&w, areas::CONFIGURATIONS);
    check_levels(&mut w, n, answer, claim, reached.left, reached.right)
}
