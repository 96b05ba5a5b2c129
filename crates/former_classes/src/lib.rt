// The classes of the round before the last: a class that the last round split off gets the number of the class that it came from.
#![tactic(auto)]

ghost use Rattle.std.specs.Prelude.{◌≡◌, ℕ, ◌≤◌, ◌<◌, length};
ghost use Rattle.work_layout.specs.WorkLayout.{work_end, member_room};
ghost use Rattle.work_layout.specs.ClassLayout.{class_in};
ghost use Rattle.former_classes.specs.FormerClasses.{former_in, Restored};

use work_layout::{BIRTHS, CLASSES};

// The number that class c had while there were `count` classes.
fn former_class(work: &[u32], c: u32, count: usize) -> u32
    requires { (c < member_room) × (work_end ≤ length work.now) }
    ensures { result ≡ former_in work.now count c }
{
    if (c as usize) < count {
        return c;
    }
    work[BIRTHS + c as usize] / 65536
}

// The classes of the first n members as they were while there were `count` classes.
pub fn restore_classes(work: &mut [u32], n: usize, count: usize)
    requires { (n ≤ member_room) × (work_end ≤ length work.old) × ((i : ℕ) → i < n → class_in work.old i < member_room) }
    ensures { Restored work.old count n work.new }
{
    for i in 0..n {
        let c = work_layout::class_at(work, i);
        let former = former_class(work, c, count);
        work[CLASSES + i] = former;
    }
}
