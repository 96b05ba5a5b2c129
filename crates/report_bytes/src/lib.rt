// The answer bytes of members that stand in the work slice with their classes, and of a report, which has the trail section behind them.
#![tactic(auto)]

ghost use Rattle.std.specs.Prelude.{◌≡◌, ◌++◌, ◌≤◌, length, drop};
ghost use Rattle.report_records.specs.Slices.{Stored};
ghost use Rattle.report_bytes.specs.ReportLayout.{members_part, trail_part, held_bytes};
ghost use Rattle.report_bytes.specs.ReportInSlice.{MembersHeld, StepsHeld, ReportHeld};

use report_records::{put_member, put_step, put_word};

// Stores the count of members and the members from the slice's start, and gives the place after the last.
pub fn put_members(work: &[u32], n: usize, out: &mut [u8]) -> usize
    requires { MembersHeld work.now n × (length (members_part work.now n) ≤ length out.old) }
    ensures { Stored out.old 0 (members_part work.now n) out.new result }
{
    let mut at = put_word(out, 0, n as u32);
    for i in 0..n {
        at = put_member(work, i, out, at);
    }
    at
}

// Stores the count of steps and the steps from the slice's start.
fn put_trail(work: &[u32], k: usize, out: &mut [u8])
    requires { StepsHeld work.now k × (length (trail_part work.now k) ≤ length out.old) }
    ensures { out.new ≡ trail_part work.now k ++ drop (length (trail_part work.now k)) out.old }
{
    let mut at = put_word(out, 0, k as u32);
    for i in 0..k {
        at = put_step(work, i, out, at);
    }
}

// The length in bytes of the count of members and the members.
pub fn members_length(work: &[u32], n: usize) -> usize
    requires { MembersHeld work.now n }
    ensures { result ≡ length (members_part work.now n) }
{
    let mut total: usize = 2;
    for place in 0..n {
        total += 5 + (work[work_layout::MEMBERS + 3 * place] % 256) as usize;
    }
    total
}

// The report's length in bytes.
pub fn report_length(work: &[u32], n: usize, k: usize) -> usize
    requires { ReportHeld work.now n k }
    ensures { result ≡ length (held_bytes work.now n k) }
{
    members_length(work, n) + 2 + 7 * k
}

// Writes the report into the front of the answer slice; the trail goes into a part lent from after the members.
pub fn put_report(work: &[u32], n: usize, k: usize, out: &mut [u8])
    requires { ReportHeld work.now n k × (length (held_bytes work.now n k) ≤ length out.old) }
    ensures { out.new ≡ held_bytes work.now n k ++ drop (length (held_bytes work.now n k)) out.old }
{
    let at = put_members(work, n, out);
    put_trail(work, k, &mut out[at..]);
}
