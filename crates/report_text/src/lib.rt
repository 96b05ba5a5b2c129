// The text that the program prints of a report, from the verdict, the round and the answer bytes. It reads any bytes: one beyond
// the end counts as 0, and a count above its limit as the limit.
#![tactic(auto)]

ghost use Rattle.std.specs.Prelude.{[], ◌∷◌, ◌+◌, ◌*◌, ◌≤◌, ◌<◌, length};
ghost use Rattle.text.specs.Lines.{line};
ghost use Rattle.text.specs.Slices.{Stored};
ghost use Rattle.report_text.specs.AnswerText.{member_text, step_text, steps_text, word_of};
ghost use Rattle.report_text.specs.ReportText.{MembersWritten, ReportWritten};

use report_fields::{
    byte_in, count_in, put_byte, put_reply, put_threads, put_word, side_letter, thread_count,
};

// Stores the line of the member that begins at a place.
fn member_line(s: &[u8], from: usize, position: usize, out: &mut [u8], at: usize) -> usize
    requires { (from < 65520) × (position < 512) × (at + 128 ≤ length out.old) }
    ensures { Stored out.old at (member_text s.now position from) out.new result × (result ≤ at + 64) }
{
    let n = thread_count(s, from);
    let class = from + 3 + n;
    let a = text::put_number(out, at, position as u64);
    let b = put_word(s, from, out, a);
    let c = put_word(s, class, out, b);
    let d = put_byte(out, c, b' ');
    let e = put_threads(s, from + 3, n, out, d);
    text::put_end(out, e)
}

// Where the members end in the answer, and where their lines end in the text.
#[derive(Drop)]
struct Reached {
    from: usize,
    at: usize,
}

// Stores the lines of n members, which begin after their count.
fn member_lines(s: &[u8], n: usize, out: &mut [u8], at: usize) -> Reached
    requires { (n ≤ 512) × (at + 64 * n + 128 ≤ length out.old) }
    ensures { MembersWritten s.now n out.old at out.new result }
{
    let mut from = 2;
    let mut next = at;
    for i in 0..n {
        next = member_line(s, from, i, out, next);
        from += 5 + thread_count(s, from);
    }
    Reached { from, at: next }
}

// Stores the line of the step that begins at a place.
fn step_line(s: &[u8], from: usize, out: &mut [u8], at: usize) -> usize
    requires { (from < 65520) × (at + 64 ≤ length out.old) }
    ensures { Stored out.old at (step_text s.now from) out.new result × (result ≤ at + 32) }
{
    let a = put_byte(out, at, side_letter(byte_in(s, from)));
    let b = put_word(s, from + 1, out, a);
    let c = put_word(s, from + 3, out, b);
    let d = put_byte(out, c, b' ');
    let e = put_reply(s, from + 5, out, d);
    text::put_end(out, e)
}

// Stores the lines of n steps from a place on.
fn step_lines(s: &[u8], start: usize, n: usize, out: &mut [u8], at: usize) -> usize
    requires { (start < 32768) × (n ≤ 512) × (at + 32 * n + 64 ≤ length out.old) }
    ensures { Stored out.old at (steps_text s.now start n) out.new result × (result ≤ at + 32 * n) }
{
    let mut next = at;
    for i in 0..n {
        next = step_line(s, start + 7 * i, out, next);
    }
    next
}

// Stores the first line: verdict and round.
fn verdict_line(same: bool, round: usize, out: &mut [u8]) -> usize
    requires { 26 ≤ length out.old }
    ensures { Stored out.old 0 (line (word_of same) (round ∷ [])) out.new result × (result ≤ 26) }
{
    if same {
        text::put_line(out, 0, b"SAME", &[round as u64])
    } else {
        text::put_line(out, 0, b"DIFF", &[round as u64])
    }
}

// Writes the text of a report from its answer bytes, and gives the text's length.
pub fn report_text(same: bool, round: usize, answer: &[u8], out: &mut [u8]) -> usize
    requires { 65536 ≤ length out.old }
    ensures { ReportWritten same round answer.now out.old out.new result }
{
    let a = verdict_line(same, round, out);
    let n = count_in(answer, 0);
    let b = text::put_line(out, a, b"CONFIGURATIONS", &[n as u64]);
    let members = member_lines(answer, n, out, b);
    let from = members.from;
    let k = count_in(answer, from);
    let c = text::put_line(out, members.at, b"TRAIL", &[k as u64]);
    step_lines(answer, from + 2, k, out, c)
}
