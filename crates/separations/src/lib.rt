// When two members are separated: by the births of their classes. The numbers of classes by first member.
#![tactic(auto)]

ghost use Rattle.std.specs.Prelude.{◌≡◌, ℕ, ◌≤◌, ◌<◌, length};
ghost use Rattle.class_rounds.specs.ClassBirths.{apart};
ghost use Rattle.separations.specs.ApartClasses.{Falls};
ghost use Rattle.separations.specs.NumberedPlaces.{NumberOne};
ghost use Rattle.separations.specs.FirstMembers.{FirstsFound};
ghost use Rattle.separations.specs.ReportClasses.{NumberReady, Renumbered};
ghost use Rattle.work_layout.specs.WorkLayout.{work_end, member_room};
ghost use Rattle.work_layout.specs.ClassLayout.{class_in, born_in, from_in_lem};

use work_layout::{BIRTHS, CHOSEN, CLASSES, LINE_TOTALS};

// The first round that has two classes apart; last where none has.
fn apart(work: &[u32], last: usize, first: u32, second: u32) -> usize
    requires { Falls work.now first second }
    ensures { result ≡ apart (from_in_lem work.now) (born_in work.now) last first second }
{
    let mut a = first;
    let mut b = second;
    let mut r = last;
    while a != b {
        let high = a.max(b);
        let low = a.min(b);
        let birth = work[BIRTHS + high as usize];
        let born = (birth % 65536) as usize;
        if born == 0 {
            return 0;
        }
        r = born;
        a = low;
        b = birth / 65536;
    }
    r
}

// The first round that has the members at places i and j apart; last where none has.
pub fn apart_at(work: &[u32], last: usize, i: usize, j: usize) -> usize
    requires { (i ≤ member_room) × (j ≤ member_room) × Falls work.now (class_in work.now i) (class_in work.now j) }
    ensures { result ≡ apart (from_in_lem work.now) (born_in work.now) last
        (class_in work.now i) (class_in work.now j) }
{
    apart(
        work,
        last,
        work_layout::class_at(work, i),
        work_layout::class_at(work, j),
    )
}

// The number by first member of the class of the member at place i, where `count` classes were met before it.
fn number_class(work: &mut [u32], i: usize, count: usize) -> usize
    requires { (i < member_room) × (count < member_room) × (class_in work.old i < member_room) × (work_end ≤ length work.old) }
    ensures { NumberOne work.old i count work.new result }
{
    let c = work_layout::class_at(work, i) as usize;
    if work[CHOSEN + c] == i as u32 {
        work[LINE_TOTALS + c] = count as u32;
        work[CLASSES + i] = count as u32;
        return count + 1;
    }
    work[CLASSES + i] = work[LINE_TOTALS + c];
    count
}

// The first member of each class chosen.
fn choose_first(work: &mut [u32], n: usize)
    requires { (n ≤ member_room) × (work_end ≤ length work.old) × ((i : ℕ) → i < n → class_in work.old i < member_room) }
    ensures { FirstsFound work.old n 0 work.new }
{
    for i in (0..n).rev() {
        let c = work_layout::class_at(work, i);
        work[CHOSEN + c as usize] = i as u32;
    }
}

// Classes by first member in place of those that keep their numbers.
pub fn number_classes(work: &mut [u32], n: usize)
    requires { NumberReady work.old n }
    ensures { Renumbered work.old n work.new }
{
    choose_first(work, n);
    let mut count: usize = 0;
    for i in 0..n {
        count = number_class(work, i, count);
    }
}
