// The library for callers in C and Rust, over numbers and slices: document 01's call, the desk's, the call for all starts, and the call for
// so many rounds; and the library's version. include/hofadiju.h declares them.
#![tactic(auto)]

ghost use Rattle.std.specs.Prelude.{◌≡◌, length};
ghost use Rattle.answer_numbers.specs.Call.{compare, compare_desk};
ghost use Rattle.answer_numbers.specs.AnswerNumbers.{Handed};
ghost use Rattle.all_numbers.specs.Grouping.{compare_all};
ghost use Rattle.all_numbers.specs.AllNumbers.{HandedAll};
ghost use Rattle.rounds_numbers.specs.AfterRounds.{compare_rounds, compare_rounds_desk};
ghost use Rattle.rounds_numbers.specs.RoundsNumbers.{HandedRounds};
ghost use Rattle.library_version.specs.LibraryVersion.{library_version};

// The version, to be compared with HOFADIJU_VERSION of the header.
#[unsafe(no_mangle)]
pub extern "C" fn hofadiju_version() -> u32
    ensures { result ≡ library_version }
{
    library_version::library_version()
}

// Document 01's call. It returns 0 for a report, else the refusal's number; the result has verdict, round, the places of both
// starts, the report's length and the refusal's place, each 0 where it does not apply.
#[unsafe(no_mangle)]
pub extern "C" fn hofadiju_compare(
    sheet: &[u8],
    left: usize,
    right: usize,
    answer: &mut [u8],
    work: &mut [u32],
    res: &mut [usize; 6],
) -> u32
    ensures { Handed (compare sheet.now left right (length work.old) (length answer.old))
        work.old answer.old work.new answer.new res.new result }
{
    let r = compare_call::compare(sheet, left, right, answer, work);
    *res = answer_numbers::answer_numbers(r);
    answer_numbers::outcome_number(r)
}

// The desk's call (document 02, card 3): the same within the desk's limits.
#[unsafe(no_mangle)]
pub extern "C" fn hofadiju_compare_desk(
    sheet: &[u8],
    left: usize,
    right: usize,
    answer: &mut [u8],
    work: &mut [u32],
    res: &mut [usize; 6],
) -> u32
    ensures { Handed (compare_desk sheet.now left right (length work.old) (length answer.old))
        work.old answer.old work.new answer.new res.new result }
{
    let r = compare_call::compare_desk(sheet, left, right, answer, work);
    *res = answer_numbers::answer_numbers(r);
    answer_numbers::outcome_number(r)
}

// The call for all starts of a sheet (document 02, card 1). It returns 0 for a grouping, else the refusal's number; the result has the
// round, the answer's length and the refusal's place, each 0 where it does not apply.
#[unsafe(no_mangle)]
pub extern "C" fn hofadiju_compare_all(
    sheet: &[u8],
    answer: &mut [u8],
    work: &mut [u32],
    res: &mut [usize; 3],
) -> u32
    ensures { HandedAll (compare_all sheet.now (length work.old) (length answer.old))
        work.old answer.old work.new answer.new res.new result }
{
    let r = all_call::compare_all(sheet, answer, work);
    *res = all_numbers::all_numbers(r);
    answer_numbers::outcome_number(r)
}

// The call for so many rounds (document 02, card 13). It returns 0 for an answer, else the refusal's number; the result has the verdict, the
// number of classes, the set's size, the answer's length and the refusal's place, each 0 where it does not apply.
#[unsafe(no_mangle)]
pub extern "C" fn hofadiju_compare_rounds(
    sheet: &[u8],
    left: usize,
    right: usize,
    rounds: u64,
    answer: &mut [u8],
    work: &mut [u32],
    res: &mut [usize; 5],
) -> u32
    ensures { HandedRounds (compare_rounds sheet.now left right rounds (length work.old) (length answer.old))
        work.old answer.old work.new answer.new res.new result }
{
    let r = rounds_call::compare_rounds(sheet, left, right, rounds, answer, work);
    *res = rounds_numbers::rounds_numbers(r);
    answer_numbers::outcome_number(r)
}

// The same within the desk's limits.
#[unsafe(no_mangle)]
pub extern "C" fn hofadiju_compare_rounds_desk(
    sheet: &[u8],
    left: usize,
    right: usize,
    rounds: u64,
    answer: &mut [u8],
    work: &mut [u32],
    res: &mut [usize; 5],
) -> u32
    ensures { HandedRounds (compare_rounds_desk sheet.now left right rounds (length work.old) (length answer.old))
        work.old answer.old work.new answer.new res.new result }
{
    let r = rounds_call::compare_rounds_desk(sheet, left, right, rounds, answer, work);
    *res = rounds_numbers::rounds_numbers(r);
    answer_numbers::outcome_number(r)
}
