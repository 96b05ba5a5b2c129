// The members that a report's answer bytes list, found among the configurations: for each its configuration's number, the class
// reported, and its class at the level, where classes are numbered by first member.
ghost use Rattle.std.specs.Prelude.{◌<◌, ◌≤◌, IsTrue};
ghost use Rattle.level_check.specs.Checking.{Listed};

use super::classes;
use level_tables::{areas, numbers, pairs, threads};

const MOST_MEMBERS: usize = 512;

// No report has its members beyond this place.
const MOST_BYTES: usize = 65000;

const MEMBER: usize = 0;

const REPORTED: usize = 1;

const SHOWN: usize = 2;

fn byte_at(s: &[u8], i: usize) -> u8 {
    s.get(i).copied().unwrap_or(255)
}

// Two bytes, the low one first.
fn word_at(s: &[u8], at: usize) -> usize
    requires { at ≤ 65536 }
    ensures { result < 65536 }
{
    usize::from(byte_at(s, at)) + 256 * usize::from(byte_at(s, at + 1))
}

// The number of the configuration whose store and threads stand at a place of the answer; none where it is not reached.
fn configuration_at(answer: &[u8], at: usize, count: u8, w: &[usize]) -> Option<usize>
    requires { at < 65000 }
{
    let list = threads::list_of(answer, at + 3, count)?;
    pairs::find(w, areas::CONFIGURATIONS, word_at(answer, at), list)
}

// Takes in the member at a place of the answer, and gives the place after it; none where no such configuration is reached.
fn list_member(answer: &[u8], at: usize, w: &mut [usize], i: usize) -> Option<usize>
    requires { at < 65000 }
{
    let count = byte_at(answer, at + 2);
    let p = configuration_at(answer, at, count, w)?;
    let class = at + 3 + usize::from(count);
    numbers::put_in_entry(w, areas::MEMBERS, i, MEMBER, p);
    numbers::put_in_entry(w, areas::MEMBERS, i, REPORTED, word_at(answer, class));
    Some(class + 2)
}

// Takes in every member of the answer, and gives their number; none where one is not reached.
pub(crate) fn list_members(answer: &[u8], w: &mut [usize]) -> Option<usize>
    ensures { Listed result }
{
    let m = word_at(answer, 0);
    if MOST_MEMBERS < m {
        return None;
    }
    let mut at = 2;
    for i in 0..m {
        if MOST_BYTES <= at {
            return None;
        }
        at = list_member(answer, at, w, i)?;
    }
    Some(m)
}

// Shows member i by its class's number; tells whether that is another than before.
fn show_member(w: &mut [usize], i: usize) -> bool {
    let class = classes::class_of(w, numbers::in_entry(w, areas::MEMBERS, i, MEMBER));
    let shown = pairs::enter(w, areas::LINES, class, 0).unwrap_or(numbers::NONE);
    let before = numbers::in_entry(w, areas::MEMBERS, i, SHOWN);
    numbers::put_in_entry(w, areas::MEMBERS, i, SHOWN, shown);
    shown != before
}

// Numbers the classes of the m members by first member, and tells whether the numbers are those of before.
pub(crate) fn show_members(w: &mut [usize], m: usize) -> bool {
    pairs::make_empty(w, areas::LINES, MOST_MEMBERS);
    let mut changed = false;
    for i in 0..m {
        changed |= show_member(w, i);
    }
    !changed
}

// Whether every member is shown by the class that was reported.
pub(crate) fn classes_agree(w: &[usize], m: usize) -> bool {
    (0..m).all(|i| {
        numbers::in_entry(w, areas::MEMBERS, i, SHOWN)
            == numbers::in_entry(w, areas::MEMBERS, i, REPORTED)
    })
}

// Whether configuration p is the member at a place.
pub(crate) fn stands_at(w: &[usize], m: usize, place: usize, p: usize) -> bool
    ensures { IsTrue result → place < m }
{
    place < m && numbers::in_entry(w, areas::MEMBERS, place, MEMBER) == p
}
