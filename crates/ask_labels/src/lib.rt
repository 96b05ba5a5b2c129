// The labels of an ask, worked out once for each store and what it lacks of the asked set.
#![tactic(auto)]

ghost use Rattle.std.specs.Prelude.{◌≡◌, cond, ◌+◌, ◌-◌, ◌/◌, ◌≤◌, ◌<◌, ◌^◌, length, eqb, IfSome};
ghost use Rattle.label_search.specs.FactsOutside.{outside};
ghost use Rattle.ask_labels.specs.LabelShelf.{max_sets, no_entries, asked_of, put_entry, Shelved, HasRoom, ShelfRoom, LabelsGiven};
ghost use Rattle.work_layout.specs.WorkLayout.{lists_at, lists_end};
ghost use Rattle.closure_table.specs.SheetLimits.{max_facts};

use closure_table::sets_of;
use label_search::labels_from;
use work_layout::{HEADS, LISTS, LISTS_END};

const MAX_SETS: usize = 64;

// How many asked sets have an entry, and how many numbers their labels take together.
#[derive(Default, Drop)]
pub struct Shelf {
    pub sets: usize,
    pub used: usize,
}

// Where the labels stand that were asked for, and the shelf with them.
#[derive(Drop)]
pub struct Labelled {
    pub first: usize,
    pub end: usize,
    pub shelf: Shelf,
}

// The shelf, with no entries where the store is another.
pub fn shelf_for(shelf: Shelf, store: u32, other: u32) -> Shelf
    ensures { result ≡ cond (eqb store other) shelf no_entries }
{
    if store == other {
        return shelf;
    }
    Shelf::default()
}

// The first of n entries that is for c.
fn entry_of(work: &[u32], n: usize, c: u16) -> Option<usize>
    requires { (n ≤ max_sets) × (lists_at ≤ length work.now) }
    ensures { IfSome result (λ i. (i < n) × (asked_of work.now i ≡ c)) }
{
    for i in 0..n {
        if work[HEADS + 3 * i] == c as u32 {
            return Some(i);
        }
    }
    None
}

// A shelf with room for an entry more: this one, or, where it is full, one with no entries.
fn with_room(facts: u16, shelf: Shelf) -> Shelf
    requires { (facts ≤ max_facts) × (lists_at + shelf.used ≤ lists_end) }
    ensures { HasRoom facts shelf result }
{
    let most = sets_of(facts) / 2 + 2;
    if shelf.sets < MAX_SETS && shelf.used + most <= LISTS_END - LISTS {
        return shelf;
    }
    Shelf::default()
}

// Puts entry i in its place.
fn put_entry(work: &mut [u32], i: usize, c: u16, first: usize, end: usize)
    requires { (i < max_sets) × (lists_at ≤ length work.old) × (first ≤ lists_end) × (end ≤ lists_end) }
    ensures { work.new ≡ put_entry work.old i c first end }
{
    let at = HEADS + 3 * i;
    work[at] = c as u32;
    work[at + 1] = first as u32;
    work[at + 2] = end as u32;
}

// The labels found, behind those of the shelf, with an entry for them.
fn add_labels(work: &mut [u32], facts: u16, d: u16, c: u16, shelf: Shelf) -> Labelled
    requires { ShelfRoom facts d work.old × Shelved work.old facts d shelf × (shelf.sets < max_sets)
        × (shelf.used + (2 ^ facts / 2 + 2) ≤ lists_end - lists_at) }
    ensures { LabelsGiven work.old facts d c result work.new }
{
    let first = LISTS + shelf.used;
    let n = labels_from(work, facts, d, c, first);
    let end = first + n;
    put_entry(work, shelf.sets, c, first, end);
    Labelled {
        first,
        end,
        shelf: Shelf {
            sets: shelf.sets + 1,
            used: shelf.used + n,
        },
    }
}

// What store d lacks of c.
fn missing(d: u16, c: u16) -> u16
    ensures { result ≡ outside d c }
{
    (d | c) - d
}

// The labels of an ask of c at store d: those of the entry for what d lacks of c, or found anew, with an entry for them.
pub fn labels_at(work: &mut [u32], facts: u16, d: u16, c: u16, shelf: Shelf) -> Labelled
    requires { ShelfRoom facts d work.old × Shelved work.old facts d shelf }
    ensures { LabelsGiven work.old facts d c result work.new }
{
    let lacking = missing(d, c);
    if let Some(i) = entry_of(work, shelf.sets, lacking) {
        let at = HEADS + 3 * i;
        return Labelled {
            first: work[at + 1] as usize,
            end: work[at + 2] as usize,
            shelf,
        };
    }
    add_labels(work, facts, d, lacking, with_room(facts, shelf))
}
