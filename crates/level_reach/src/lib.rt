// Every configuration that two starts of a sheet reach by adding any constraint and by reductions (document 01, "Rounds": the plain
// counterpart), and the reductions, in the areas of one slice.
#![tactic(auto)]

mod constraints;
mod intake;
mod reductions;

ghost use Rattle.std.specs.Prelude.{◌≡◌, ◌≤◌, IfSome};
ghost use Rattle.level_reach.specs.Constraints.{constraint_count};
ghost use Rattle.level_reach.specs.Reaching.{configurations, AddedAs};

use level_tables::{areas, numbers, pairs, threads};
use sheet_types::{Configuration, Sheet};

// More configurations than these, and more reductions, have no room.
const MOST_CONFIGURATIONS: usize = 4096;

const MOST_REDUCTIONS: usize = 8192;

// The numbers of both starts' configurations.
#[derive(Clone, Copy)]
pub struct Reached {
    pub left: usize,
    pub right: usize,
}

// How many constraints there are.
pub fn constraint_count(w: &[usize]) -> usize
    ensures { result ≡ constraint_count w.now }
{
    numbers::number_at(w, areas::CONSTRAINTS)
}

// The number of configuration p with constraint e added; none where it is not there.
pub fn added(w: &[usize], p: usize, e: usize) -> Option<usize>
    ensures { AddedAs w.now p e result }
{
    let store = constraints::joined(
        w,
        pairs::first(w, areas::CONFIGURATIONS, p),
        constraints::constraint(w, e),
    );
    pairs::find(
        w,
        areas::CONFIGURATIONS,
        store,
        pairs::second(w, areas::CONFIGURATIONS, p),
    )
}

// Enters configuration p with each constraint added; none where there is no room.
fn add_each(w: &mut [usize], p: usize) -> Option<()> {
    let store = pairs::first(w, areas::CONFIGURATIONS, p);
    let list = pairs::second(w, areas::CONFIGURATIONS, p);
    let n = constraint_count(w);
    for e in 0..n {
        let sum = constraints::joined(w, store, constraints::constraint(w, e));
        pairs::enter(w, areas::CONFIGURATIONS, sum, list)?;
    }
    Some(())
}

// Enters everything that is reached from the configurations in the table. Number 0 of entry p is then the number of p's first
// reduction, and of the entry after the last it is the end of them. None where there is no room.
fn grow(w: &mut [usize]) -> Option<()>
    ensures { IfSome result (λ _. configurations w.new ≤ 4096) }
{
    for p in 0..=MOST_CONFIGURATIONS {
        numbers::put_in_entry(w, areas::NUMBERS, p, 0, pairs::count(w, areas::REDUCTIONS));
        if pairs::count(w, areas::CONFIGURATIONS) <= p {
            return Some(());
        }
        add_each(w, p)?;
        reductions::reduce(w, p)?;
    }
    None
}

// The number of a start's configuration, which is entered.
fn enter_start(w: &mut [usize], start: Configuration) -> Option<usize> {
    let bytes = start.threads;
    let list = threads::list_of(&bytes, 0, start.count)?;
    pairs::enter(w, areas::CONFIGURATIONS, usize::from(start.store), list)
}

// Takes in a sheet, and enters every configuration that the two starts reach; none where there is no room.
pub fn reach(
    sheet: Sheet,
    left: Configuration,
    right: Configuration,
    w: &mut [usize],
) -> Option<Reached>
    ensures { IfSome result (λ _. configurations w.new ≤ 4096) }
{
    pairs::make_empty(w, areas::CONFIGURATIONS, MOST_CONFIGURATIONS);
    pairs::make_empty(w, areas::REDUCTIONS, MOST_REDUCTIONS);
    let left = enter_start(w, left)?;
    let right = enter_start(w, right)?;
    intake::take_in(sheet, w)?;
    grow(w)?;
    Some(Reached { left, right })
}
