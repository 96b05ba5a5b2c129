// The answer bytes of one member with its class, and of one step of the trail, from the work slice.
#![tactic(auto)]

ghost use Rattle.std.specs.Prelude.{◌+◌, ◌≤◌, ◌<◌, length, take};
ghost use Rattle.packing.specs.Packing.{eight_bytes};
ghost use Rattle.packing.specs.SheetBytes.{word_bytes};
ghost use Rattle.text.specs.Slices.{Stored};
ghost use Rattle.report_records.specs.RecordLayout.{PackedAt, side_in, member_bytes_at, step_bytes_at};
ghost use Rattle.work_layout.specs.WorkLayout.{work_end, member_room};

use work_layout::{CLASSES, STEPS};

// Stores two bytes, the low one first, and gives the place after them.
pub fn put_word(out: &mut [u8], at: usize, x: u32) -> usize
    requires { at + 2 ≤ length out.old }
    ensures { Stored out.old at (word_bytes x) out.new result }
{
    out[at] = (x % 256) as u8;
    out[at + 1] = (x / 256 % 256) as u8;
    at + 2
}

// Stores the first count threads of two numbers.
fn put_threads(out: &mut [u8], at: usize, b: u32, c: u32, count: usize) -> usize
    requires { (count ≤ 8) × (at + count ≤ length out.old) }
    ensures { Stored out.old at (take count (eight_bytes b c)) out.new result }
{
    for i in 0..count {
        out[at + i] = packing::thread_in(b, c, i);
    }
    at + count
}

// Stores the member at place i: store, thread count, threads, class.
pub fn put_member(work: &[u32], i: usize, out: &mut [u8], at: usize) -> usize
    requires { (work_end ≤ length work.now) × (i < member_room) × PackedAt work.now i × (at + length (member_bytes_at work.now i) ≤ length out.old) }
    ensures { Stored out.old at (member_bytes_at work.now i) out.new result }
{
    let a = work[work_layout::MEMBERS + 3 * i];
    let b = work[work_layout::MEMBERS + 3 * i + 1];
    let c = work[work_layout::MEMBERS + 3 * i + 2];
    let count = a % 256;
    let counted = put_word(out, at, a / 256);
    out[counted] = count as u8;
    let classed = put_threads(out, counted + 1, b, c, count as usize);
    put_word(out, classed, work[CLASSES + i])
}

// Stores step i: side, label, mover's target, reply's target.
pub fn put_step(work: &[u32], i: usize, out: &mut [u8], at: usize) -> usize
    requires { (work_end ≤ length work.now) × (i < member_room) × (side_in work.now i < 256) × (at + 7 ≤ length out.old) }
    ensures { Stored out.old at (step_bytes_at work.now i) out.new result }
{
    let x = work[STEPS + 3 * i + 1];
    out[at] = work[STEPS + 3 * i] as u8;
    let targeted = put_word(out, at + 1, x / 65536);
    let replied = put_word(out, targeted, x % 65536);
    put_word(out, replied, work[STEPS + 3 * i + 2])
}
