// The levels of document 01's plain counterpart ("Rounds"), over every configuration of a table that adding constraints and
// reducing do not leave. A line is the store and, for each constraint, the number of the set of classes that is reached with the
// constraint added: two configurations share a class at the next level exactly where their lines are equal. Classes are
// numbered from 0 by first configuration.
ghost use Rattle.std.specs.Prelude.{◌≡◌, ◌<◌, ◌≤◌, IfSome};
ghost use Rattle.level_tables.specs.Numbers.{none, in_entry};

use level_tables::{areas, numbers, pairs};

const MOST_LINES: usize = 8192;

const BEGIN: usize = 0;

const CLASS: usize = 1;

const REACHED: usize = 2;

const LINE: usize = 3;

// One of the four numbers of configuration p.
fn number_of(w: &[usize], p: usize, k: usize) -> usize {
    numbers::in_entry(w, areas::NUMBERS, p, k)
}

// The class of configuration p.
pub(crate) fn class_of(w: &[usize], p: usize) -> usize
    ensures { result ≡ in_entry w.now 1281 p 1 }
{
    numbers::in_entry(w, areas::NUMBERS, p, CLASS)
}

// The least class, not below a bound, that reductions from one number up to another reach; none where there is none.
fn least_reached(w: &[usize], from: usize, end: usize, low: usize) -> Option<usize>
    ensures { IfSome result (λ class. (low ≤ class) × (class < none)) }
{
    let mut least = numbers::NONE;
    for m in from..end {
        let class = class_of(w, pairs::second(w, areas::REDUCTIONS, m));
        if low <= class {
            least = least.min(class);
        }
    }
    (least < numbers::NONE).then_some(least)
}

// The number of the set of classes that the reductions of p reach: 0 for the empty set, and for another the number of the
// set without its greatest class and that class, as a pair of the table, plus one. None where there is no room.
fn set_number(w: &mut [usize], p: usize) -> Option<usize> {
    let from = number_of(w, p, BEGIN);
    let end = number_of(w, p.saturating_add(1), BEGIN);
    let mut set: usize = 0;
    let mut low = 0;
    while let Some(class) = least_reached(w, from, end, low) {
        set = pairs::enter(w, areas::LINES, set, class)?.saturating_add(1);
        low = class + 1;
    }
    Some(set)
}

// Numbers the sets of all n configurations; none where there is no room.
fn number_sets(w: &mut [usize], n: usize) -> Option<()> {
    pairs::make_empty(w, areas::LINES, MOST_LINES);
    for p in 0..n {
        let set = set_number(w, p)?;
        numbers::put_in_entry(w, areas::NUMBERS, p, REACHED, set);
    }
    Some(())
}

// Numbers a line that goes on from what it was by one number; none where there is no room or no such number.
fn number_line(w: &mut [usize], p: usize, so_far: usize, next: usize) -> Option<()> {
    if next == numbers::NONE {
        return None;
    }
    let line = pairs::enter(w, areas::LINES, so_far, next)?;
    numbers::put_in_entry(w, areas::NUMBERS, p, LINE, line);
    Some(())
}

// Begins every line with the store.
fn begin_lines(w: &mut [usize], n: usize) -> Option<()> {
    pairs::make_empty(w, areas::LINES, MOST_LINES);
    for p in 0..n {
        let store = pairs::first(w, areas::CONFIGURATIONS, p);
        number_line(w, p, store, 0)?;
    }
    Some(())
}

// Goes on with the line of p by the set that is reached once constraint e is added.
fn extend_line(w: &mut [usize], p: usize, e: usize) -> Option<()> {
    let t = level_reach::added(w, p, e)?;
    let reached = number_of(w, t, REACHED);
    let so_far = number_of(w, p, LINE);
    number_line(w, p, so_far, reached)
}

// Goes on with every line.
fn extend_lines(w: &mut [usize], n: usize, e: usize) -> Option<()> {
    pairs::make_empty(w, areas::LINES, MOST_LINES);
    for p in 0..n {
        extend_line(w, p, e)?;
    }
    Some(())
}

// Every line, whole; none where there is no room.
fn make_lines(w: &mut [usize], n: usize) -> Option<()> {
    begin_lines(w, n)?;
    for e in 0..level_reach::constraint_count(w) {
        extend_lines(w, n, e)?;
    }
    Some(())
}

// The line's number becomes the class of p; tells whether the class was another.
fn take_line(w: &mut [usize], p: usize) -> bool {
    let line = number_of(w, p, LINE);
    let class = class_of(w, p);
    numbers::put_in_entry(w, areas::NUMBERS, p, CLASS, line);
    line != class
}

// Every line's number becomes a class; tells whether any class was another.
fn take_lines(w: &mut [usize], n: usize) -> bool {
    let mut changed = false;
    for p in 0..n {
        changed |= take_line(w, p);
    }
    changed
}

// Level 0: equal stores; none where there is no room.
pub(crate) fn first_level(w: &mut [usize], n: usize) -> Option<()> {
    begin_lines(w, n)?;
    take_lines(w, n);
    Some(())
}

// The next level: whether any class is another; none where there is no room.
pub(crate) fn next_level(w: &mut [usize], n: usize) -> Option<bool> {
    number_sets(w, n)?;
    make_lines(w, n)?;
    Some(take_lines(w, n))
}
