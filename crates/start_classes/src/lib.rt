// The classes of a sheet's starts as answer bytes, from a set that stands in the work slice with its classes.
#![tactic(auto)]

ghost use Rattle.std.specs.Prelude.{◌≡◌, ◌+◌, ◌*◌, ◌≤◌, length};
ghost use Rattle.report_records.specs.Slices.{Stored};
ghost use Rattle.sheet_types.specs.HeldSheet.{configuration};
ghost use Rattle.start_classes.specs.StartClasses.{class_held, starts_part, MemberHeld, StartsHeld};

use report_records::put_word;
use sheet_types::Configuration;

// The class of the member that a configuration is.
pub fn class_of(work: &[u32], n: usize, p: Configuration) -> u32
    requires { MemberHeld work.now n p }
    ensures { result ≡ class_held work.now n (configuration p) }
{
    let place = dominators::find_member(work, n, p.numbers());
    work_layout::class_at(work, place)
}

// Stores the class of each of the first k starts, two bytes each, and gives the place after the last.
pub fn put_starts(
    work: &[u32],
    n: usize,
    starts: [Configuration; 16],
    k: usize,
    out: &mut [u8],
    at: usize,
) -> usize
    requires { StartsHeld work.now n starts k × (at + 2 * k ≤ length out.old) }
    ensures { Stored out.old at (starts_part work.now n starts k) out.new result }
{
    let mut next = at;
    for i in 0..k {
        let class = class_of(work, n, starts[i]);
        next = put_word(out, next, class);
    }
    next
}
