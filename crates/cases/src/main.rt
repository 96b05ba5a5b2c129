// Runs a list of cases from standard input. A case names its call: to read the sheet, to work out the set that grows from the two
// chosen starts, to compare them, to compare all starts, with an answer slice and a work slice of the lengths that the case gives, or so
// many rounds of starts 0 and 1, with an answer slice of the length that the case gives.
// The case's name is written with what the call gives; after a comparison a line says what the desk's call gives of the same input, the
// same or its refusal; after a report a line says whether a second checker, which works out document 01's levels over every configuration
// that the starts reach, finds the same verdict, round and classes; and after a grouping of all starts, or its refusal 21, a line says what
// the comparing call finds of every two starts. After an answer of so many rounds a line says what the desk's call gives of the same input,
// and one whether the largest number of rounds gives the verdict, members and classes of the comparing call. All cases share one work slice, which is not cleared between them.
#![tactic(auto)]

ghost use Rattle.std.specs.Prelude.{◌≡◌, ◌≤◌, length, take};
ghost use Rattle.case_lines.specs.Lines.{Inside};

use after_rounds::{Reached, Verdict};
use all_starts::Grouped;
use answers::Reported;
use case_lines::{Call, Case, Line};
use level_check::{Checked, Claim};
use refusals::{Refusal, Refused};
use report_fields::byte_in;
use sheet_types::{Configuration, Sheet};
use std::io::{self, Stdout, Write};

const LINE_FEED: u8 = 10;

const MOST_ROUNDS: u64 = 18446744073709551615;

// Room for a list of cases: 256 KiB, where the list has about 220,000 bytes. What stands beyond is not read.
fn room() -> [u8; 262144]
    ensures { 262144 ≡ length result }
{
    [0; 262144]
}

// Writes what reading a sheet and choosing two starts gives.
fn write_reading(output: &mut Stdout, sheet: &[u8], left: usize, right: usize) -> io::Result<()> {
    let mut out = [0u8; 128];
    let n = reading_text::reading_line(sheet, left, right, &mut out);
    output.write_all(b" ")?;
    output.write_all(&out[..n])
}

// The line of a refusal, and its length.
fn put_refusal(refused: Refused, out: &mut [u8]) -> usize
    ensures { (result ≤ length out.new) × (result ≡ length (take result out.new)) }
{
    text::refused_line(out, u8::from(refused.refusal), refused.place)
}

// Writes the line of a refusal.
fn write_refused(output: &mut Stdout, refused: Refused) -> io::Result<()> {
    let mut out = [0u8; 128];
    let n = put_refusal(refused, &mut out);
    output.write_all(&out[..n])
}

// The line of the set of two starts of a sheet, and its length.
fn put_set(sheet: &[u8], left: usize, right: usize, work: &mut [u32], out: &mut [u8]) -> usize
    ensures { (result ≤ length out.new) × (result ≡ length (take result out.new)) }
{
    match call_frame::set_of_choice(sheet, left, right, work) {
        Ok(size) => {
            let sum = set_text::checksum(work, size.members);
            set_text::set_line(size.members, size.moves, sum, out)
        }
        Err(refused) => put_refusal(refused, out),
    }
}

// Writes the set of two starts of a sheet: its counts and checksum, or the refusal.
fn write_set(
    output: &mut Stdout,
    sheet: &[u8],
    left: usize,
    right: usize,
    work: &mut [u32],
) -> io::Result<()> {
    let mut out = [0u8; 128];
    let n = put_set(sheet, left, right, work, &mut out);
    output.write_all(b" ")?;
    output.write_all(&out[..n])
}

// The start with this number, the first where there is none.
fn start_of(starts: [Configuration; 16], k: usize) -> Configuration {
    if k < 16 { starts[k] } else { starts[0] }
}

// What a report claims.
fn claim_of(reported: Reported) -> Claim {
    Claim {
        same: reported.same,
        round: reported.round,
        left: reported.left,
        right: reported.right,
    }
}

// A report on two starts of a sheet held to the levels.
fn check_report(sheet: Sheet, left: usize, right: usize, claim: Claim, answer: &[u8]) -> Checked {
    let starts = sheet.starts;
    let l = start_of(starts, left);
    let r = start_of(starts, right);
    level_check::check(sheet, l, r, claim, answer)
}

// Writes what the levels say of a report on two starts of a sheet.
fn write_levels(
    output: &mut Stdout,
    sheet: &[u8],
    left: usize,
    right: usize,
    reported: Reported,
    answer: &[u8],
) -> io::Result<()> {
    let mut out = [0u8; 128];
    match sheet_reader::read_choice(sheet, left, right) {
        Err(_) => Ok(()),
        Ok(held) => {
            let checked = check_report(held, left, right, claim_of(reported), answer);
            let n = level_text::checked_line(checked, &mut out);
            output.write_all(&out[..n])
        }
    }
}

// Writes the desk's refusal, where the other call gave something else; there is no other way in which the two may differ.
fn write_difference(output: &mut Stdout, desk: Result<Reported, Refused>) -> io::Result<()> {
    match desk {
        Ok(_) => output.write_all(b"DESK DIFFERS\n"),
        Err(refused) => {
            output.write_all(b"DESK ")?;
            write_refused(output, refused)
        }
    }
}

// Writes what the desk's call gives beside document 01's, of which the answer and the answer slice are given: whether both are the
// same whole, in an answer slice with the room that suffices for the desk, or the refusal.
fn write_desk(
    output: &mut Stdout,
    sheet: &[u8],
    left: usize,
    right: usize,
    work: &mut [u32],
    r: Result<Reported, Refused>,
    answer: &[u8],
) -> io::Result<()> {
    let mut bytes = [0u8; 1277];
    let desk = compare_call::compare_desk(sheet, left, right, &mut bytes, work);
    if desk == r && answer.starts_with(&bytes) {
        output.write_all(b"DESK AGREES\n")
    } else {
        write_difference(output, desk)
    }
}

// Writes the report on two starts of a sheet, or the refusal, what the desk's call gives, and what the levels say of a report.
fn write_comparison(
    output: &mut Stdout,
    sheet: &[u8],
    left: usize,
    right: usize,
    work: &mut [u32],
) -> io::Result<()> {
    let mut answer = [0u8; 10237];
    let mut out = [0u8; 65536];
    let r = compare_call::compare(sheet, left, right, &mut answer, work);
    let k = outcome_text::outcome_text(r, &answer, &mut out);
    output.write_all(b"\n")?;
    output.write_all(&out[..k])?;
    write_desk(output, sheet, left, right, work, r, &answer)?;
    match r {
        Ok(x) => write_levels(output, sheet, left, right, x, &answer),
        Err(_) => Ok(()),
    }
}

// Writes a space and a number.
fn write_number(output: &mut Stdout, n: usize) -> io::Result<()> {
    let mut out = [0u8; 32];
    let k = text::put_field(&mut out, 0, n as u64);
    output.write_all(&out[..k])
}

// Writes a part of a slice, where it has one from the first place to the second.
fn write_part(output: &mut Stdout, s: &[u8], from: usize, to: usize) -> io::Result<()> {
    if from <= to && to <= s.len() {
        output.write_all(&s[from..to])?;
    }
    Ok(())
}

// Writes the lines of the members at the front of an answer: what the text of a report has between its first line, of 7 bytes, and its
// last, of 8.
fn write_members(output: &mut Stdout, answer: &[u8]) -> io::Result<()> {
    let mut out = [0u8; 65536];
    let n = report_text::report_text(true, 0, answer, &mut out);
    if 8 <= n {
        write_part(output, &out, 7, n - 8)?;
    }
    Ok(())
}

// The class of start i, in the bytes that follow the last member.
fn class_in(classes: &[u8], i: usize) -> usize {
    if i < 16 {
        byte_in(classes, 2 * i) + 256 * byte_in(classes, 2 * i + 1)
    } else {
        0
    }
}

// Writes the classes of k starts.
fn write_classes(output: &mut Stdout, classes: &[u8], k: usize) -> io::Result<()> {
    output.write_all(b"STARTS")?;
    for i in 0..k {
        write_number(output, class_in(classes, i))?;
    }
    output.write_all(b"\n")
}

// Whether the comparing call finds two starts the same; none where it refuses them.
fn pair_of(sheet: &[u8], left: usize, right: usize, work: &mut [u32]) -> Option<bool> {
    let mut answer = [0u8; 10237];
    match compare_call::compare(sheet, left, right, &mut answer, work) {
        Ok(x) => Some(x.same),
        Err(_) => None,
    }
}

// Two starts beside their classes: whether they share one exactly where the comparing call finds them the same. Where there are no
// classes, whether it reports on them.
fn pair_agrees(sheet: &[u8], i: usize, j: usize, classes: &[u8], work: &mut [u32]) -> bool {
    let one = class_in(classes, i) == class_in(classes, j);
    match pair_of(sheet, i, j, work) {
        Some(same) => classes.is_empty() || one == same,
        None => false,
    }
}

// The same of start i and each from it on, of k starts.
fn later_agree(sheet: &[u8], i: usize, k: usize, classes: &[u8], work: &mut [u32]) -> bool {
    for j in i..k {
        if !pair_agrees(sheet, i, j, classes, work) {
            return false;
        }
    }
    true
}

// The same of every two of k starts.
fn pairs_agree(sheet: &[u8], k: usize, classes: &[u8], work: &mut [u32]) -> bool {
    for i in 0..k {
        if !later_agree(sheet, i, k, classes, work) {
            return false;
        }
    }
    true
}

// Writes the members and the classes of k starts of an answer of this length, and whether every two starts agree with them.
fn write_answer(
    output: &mut Stdout,
    sheet: &[u8],
    k: usize,
    length: usize,
    answer: &[u8],
    work: &mut [u32],
) -> io::Result<()> {
    if 16 < k {
        return Ok(());
    }
    if length < 2 * k {
        return Ok(());
    }
    if answer.len() < length {
        return Ok(());
    }
    let end = length - 2 * k;
    write_members(output, &answer[..end])?;
    write_classes(output, &answer[end..length], k)?;
    if pairs_agree(sheet, k, &answer[end..length], work) {
        output.write_all(b"PAIRS AGREE\n")
    } else {
        output.write_all(b"PAIRS DIFFER\n")
    }
}

// Writes the round and the length of a grouping, and its answer.
fn write_grouping(
    output: &mut Stdout,
    sheet: &[u8],
    k: usize,
    x: Grouped,
    answer: &[u8],
    work: &mut [u32],
) -> io::Result<()> {
    let mut out = [0u8; 128];
    let n = text::number_line(&mut out, b"CLASSES", &[x.round as u64, x.length as u64]);
    output.write_all(&out[..n])?;
    write_answer(output, sheet, k, x.length, answer, work)
}

// Writes a refusal, and after 21 whether the comparing call reports on every two of k starts.
fn write_refusal(
    output: &mut Stdout,
    sheet: &[u8],
    k: usize,
    refused: Refused,
    work: &mut [u32],
) -> io::Result<()> {
    write_refused(output, refused)?;
    if refused.refusal != Refusal::LargeSet {
        return Ok(());
    }
    if pairs_agree(sheet, k, b"", work) {
        output.write_all(b"PAIRS REPORTED\n")
    } else {
        output.write_all(b"PAIRS REFUSED\n")
    }
}

// The call for all starts, with slices no longer than these lengths.
fn group(
    sheet: &[u8],
    room: usize,
    numbers: usize,
    answer: &mut [u8],
    work: &mut [u32],
) -> Result<Grouped, Refused> {
    let a = room.min(answer.len());
    let w = numbers.min(work.len());
    all_call::compare_all(sheet, &mut answer[..a], &mut work[..w])
}

// How many starts a sheet has; none where it is refused.
fn start_count(sheet: &[u8]) -> usize {
    match sheet_reader::read_sheet(sheet) {
        Ok(held) => usize::from(held.start_count),
        Err(_) => 0,
    }
}

// Writes what the call for all starts gives.
fn write_all_starts(
    output: &mut Stdout,
    sheet: &[u8],
    room: usize,
    numbers: usize,
    work: &mut [u32],
) -> io::Result<()> {
    let mut answer = [0u8; 6690];
    let k = start_count(sheet);
    output.write_all(b"\n")?;
    match group(sheet, room, numbers, &mut answer, work) {
        Ok(x) => write_grouping(output, sheet, k, x, &answer, work),
        Err(refused) => write_refusal(output, sheet, k, refused, work),
    }
}

// Writes a verdict.
fn write_verdict(output: &mut Stdout, verdict: Verdict) -> io::Result<()> {
    match verdict {
        Verdict::Same => output.write_all(b"SAME"),
        Verdict::Diff => output.write_all(b"DIFF"),
        Verdict::Open => output.write_all(b"OPEN"),
    }
}

// Writes the numbers that are returned of an answer after so many rounds, and its members.
fn write_reached(output: &mut Stdout, x: Reached, answer: &[u8]) -> io::Result<()> {
    write_verdict(output, x.verdict)?;
    write_number(output, x.classes)?;
    write_number(output, x.members)?;
    write_number(output, x.length)?;
    output.write_all(b"\n")?;
    if x.length <= answer.len() {
        write_members(output, &answer[..x.length])?;
    }
    Ok(())
}

// Whether a slice begins with the first n bytes of another.
fn begins_with_part(s: &[u8], bytes: &[u8], n: usize) -> bool {
    n <= bytes.len() && s.starts_with(&bytes[..n])
}

// Writes what the desk's call gives beside an answer after so many rounds: whether both are the same whole, or its refusal.
fn write_rounds_desk(
    output: &mut Stdout,
    sheet: &[u8],
    rounds: u64,
    r: Result<Reached, Refused>,
    answer: &[u8],
    work: &mut [u32],
) -> io::Result<()> {
    let mut bytes = [0u8; 834];
    let desk = rounds_call::compare_rounds_desk(sheet, 0, 1, rounds, &mut bytes, work);
    match desk {
        Ok(x) => {
            if desk == r && begins_with_part(answer, &bytes, x.length) {
                output.write_all(b"DESK AGREES\n")
            } else {
                output.write_all(b"DESK DIFFERS\n")
            }
        }
        Err(refused) => {
            output.write_all(b"DESK ")?;
            write_refused(output, refused)
        }
    }
}

// Whether a verdict is that of a report.
fn is_verdict(verdict: Verdict, same: bool) -> bool {
    match verdict {
        Verdict::Same => same,
        Verdict::Diff => !same,
        Verdict::Open => false,
    }
}

// Whether an answer has the verdict, the members and the classes of a report.
fn is_result(
    r: Result<Reached, Refused>,
    bytes: &[u8],
    s: Result<Reported, Refused>,
    report: &[u8],
) -> bool {
    match (r, s) {
        (Ok(x), Ok(y)) => is_verdict(x.verdict, y.same)
            && begins_with_part(report, bytes, x.length),
        _ => false,
    }
}

// Writes whether the largest number of rounds gives what the comparing call does.
fn write_most(output: &mut Stdout, sheet: &[u8], work: &mut [u32]) -> io::Result<()> {
    let mut bytes = [0u8; 6658];
    let mut report = [0u8; 10237];
    let r = rounds_call::compare_rounds(sheet, 0, 1, MOST_ROUNDS, &mut bytes, work);
    let s = compare_call::compare(sheet, 0, 1, &mut report, work);
    if is_result(r, &bytes, s, &report) {
        output.write_all(b"MOST AGREES\n")
    } else {
        output.write_all(b"MOST DIFFERS\n")
    }
}

// The call for so many rounds of starts 0 and 1, with an answer slice no longer than this length.
fn round_starts(
    sheet: &[u8],
    rounds: u64,
    room: usize,
    answer: &mut [u8],
    work: &mut [u32],
) -> Result<Reached, Refused> {
    let a = room.min(answer.len());
    rounds_call::compare_rounds(sheet, 0, 1, rounds, &mut answer[..a], work)
}

// Writes what the call for so many rounds gives of starts 0 and 1.
fn write_rounds(
    output: &mut Stdout,
    sheet: &[u8],
    rounds: usize,
    room: usize,
    work: &mut [u32],
) -> io::Result<()> {
    let mut answer = [0u8; 6658];
    output.write_all(b"\n")?;
    let r = round_starts(sheet, rounds as u64, room, &mut answer, work);
    match r {
        Ok(x) => {
            write_reached(output, x, &answer)?;
            write_rounds_desk(output, sheet, rounds as u64, r, &answer, work)?;
            write_most(output, sheet, work)
        }
        Err(refused) => write_refused(output, refused),
    }
}

// Writes what a call gives for a sheet and two numbers: two of its starts, the lengths of the slices, or a number of rounds and the length
// of the answer slice.
fn write_call(
    output: &mut Stdout,
    call: Call,
    sheet: &[u8],
    left: usize,
    right: usize,
    work: &mut [u32],
) -> io::Result<()> {
    match call {
        Call::Read => write_reading(output, sheet, left, right),
        Call::Set => write_set(output, sheet, left, right, work),
        Call::Compare => write_comparison(output, sheet, left, right, work),
        Call::All => write_all_starts(output, sheet, left, right, work),
        Call::Rounds => write_rounds(output, sheet, left, right, work),
    }
}

fn write_malformed(output: &mut Stdout) -> io::Result<()> {
    output.write_all(b"MALFORMED\n")
}

// Writes a case's name, and what its call gives.
fn run_case(output: &mut Stdout, line: &[u8], case: Case, work: &mut [u32]) -> io::Result<()>
    requires { Inside line.now case }
{
    let mut sheet = [0u8; 1024];
    match case_lines::decode(&line[case.digits..], &mut sheet) {
        None => write_malformed(output),
        Some(n) => {
            output.write_all(&line[case.name..case.until])?;
            write_call(output, case.call, &sheet[..n], case.left, case.right, work)
        }
    }
}

fn run_line(output: &mut Stdout, line: &[u8], work: &mut [u32]) -> io::Result<()> {
    let held = case_lines::line_of(line);
    match held {
        Line::Passed => Ok(()),
        Line::Malformed => write_malformed(output),
        Line::Holds(case) => run_case(output, line, case, work),
    }
}

fn run(output: &mut Stdout, text: &[u8], work: &mut [u32]) -> io::Result<()> {
    let mut at: usize = 0;
    while at < text.len() {
        let end = case_lines::end_from(text, at, LINE_FEED);
        run_line(output, &text[at..end], work)?;
        at = case_lines::after_from(text, at, LINE_FEED);
    }
    Ok(())
}

fn main(rt: HostRuntime) -> io::Result<()> {
    let mut text = room();
    let mut work = work_layout::work_room();
    let n = input_bytes::read_full(&mut rt.stdin(), &mut text)?;
    run(&mut rt.stdout(), &text[..n], &mut work)
}
