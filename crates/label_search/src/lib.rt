// The labels of an ask at a store: the sets that have all facts of the store are tried in ascending order.
#![tactic(auto)]

ghost use Rattle.std.specs.Prelude.{◌≡◌, ◌+◌, ◌/◌, ◌≤◌, ◌<◌, ◌^◌, length, take, drop};
ghost use Rattle.closure_table.specs.Frames.{SameOutside};
ghost use Rattle.label_search.specs.AskLabels.{LabelsAre, LabelRoom, FoundBelow, is_next};

use closure_table::sets_of;
use label_tests::{inside_from, passes};
use number_lists::sort_numbers;

// Whether a set gives a label, and the place to look at first for a label inside the next set.
#[derive(Drop)]
struct Tried {
    is_label: bool,
    hint: usize,
}

// Whether the closure of what v has outside d is a label, with those of lower v found already, n of them from `at` on. Sets that
// follow one another often have the same label inside.
fn try_set(work: &[u32], d: usize, c: u32, v: usize, at: usize, n: usize, hint: usize) -> Tried
    requires { (d ≤ v) × (v < length work.now) × (at + n ≤ length work.now) × (at ≤ hint) × (hint ≤ at + n) }
    ensures { (result.is_label ≡ is_next work.now d c (take n (drop at work.now)) v)
        × (at ≤ result.hint) × (result.hint ≤ at + n) }
{
    if !passes(work, d, c, v) {
        return Tried {
            is_label: false,
            hint,
        };
    }
    match inside_from(work, at, at + n, hint, work[v - d]) {
        Some(i) => Tried {
            is_label: false,
            hint: i,
        },
        None => Tried {
            is_label: true,
            hint: at + n,
        },
    }
}

// Tries each set that has all facts of d, in ascending order: the closure of what it has outside d is stored behind the labels
// found, and counted where it is one.
fn scan_labels(work: &mut [u32], facts: u16, d: usize, c: u32, at: usize) -> usize
    requires { LabelRoom facts d at work.old }
    ensures { FoundBelow work.old facts d c (2 ^ facts) (take result (drop at work.new)) × (result ≤ 2 ^ facts / 2 + 1)
        × SameOutside at (at + 2 ^ facts / 2 + 2) work.old work.new }
{
    let size = sets_of(facts);
    let mut n: usize = 0;
    let mut hint = at;
    let mut v: usize = d;
    while v < size {
        let t = try_set(work, d, c, v, at, n, hint);
        work[at + n] = work[v - d];
        n += usize::from(t.is_label);
        hint = t.hint;
        v = d | (v + 1);
    }
    n
}

// The labels of an ask of c at store d, in ascending order from `at` on, and how many there are: the least store alone, which
// is the closure of the empty set, where c is inside d already.
pub fn labels_from(work: &mut [u32], facts: u16, d: u16, c: u16, at: usize) -> usize
    requires { LabelRoom facts d at work.old }
    ensures { LabelsAre work.old facts d c (take result (drop at work.new)) × (result ≤ 2 ^ facts / 2 + 1)
        × SameOutside at (at + 2 ^ facts / 2 + 2) work.old work.new }
{
    if c & d == c {
        work[at] = work[0];
        return 1;
    }
    let n = scan_labels(work, facts, d as usize, c as u32, at);
    sort_numbers(work, at, at + n);
    n
}
