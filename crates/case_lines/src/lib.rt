// Lines of a list of cases: the call that is meant, a name, two numbers in decimal, and a sheet as hex digits, parted by one space
// each. A line that is empty or begins with # is passed over.
#![tactic(auto)]

ghost use Rattle.std.specs.Prelude.{◌≡◌, true, ◌++◌, ◌*◌, ◌≤◌, ◌<◌, length, drop};
ghost use Rattle.list_laws.specs.Lists.{all, same_numbers};
ghost use Rattle.list_laws.specs.Tabulate.{tabulate};
ghost use Rattle.printed_lines.specs.Decimal.{value};
ghost use Rattle.case_lines.specs.Lines.{end_from, after_from, field_at, between, dash_or_letter, in_class, hex_digit, byte_of, most_digits, number_of, call_of, wrong_name, Decoded, passed_over, case_of, line_of};

const SPACE: u8 = 32;

const HASH: u8 = 35;

// Numbers of so many digits fit.
const MOST_DIGITS: usize = 19;

// What a byte may be: a decimal digit, a hex digit, a byte of a name.
#[derive(Clone, Copy)]
enum Class {
    Digit,
    Hex,
    Name,
}

// What is asked of a sheet: to read it, the set of two starts, to compare them, to compare all starts, or so many rounds.
#[derive(Clone, Copy)]
pub enum Call {
    Read,
    Set,
    Compare,
    All,
    Rounds,
}

// A case: its call, where its name begins and ends, its two numbers, and the place of its sheet's digits.
#[derive(Clone, Copy)]
pub struct Case {
    pub call: Call,
    pub name: usize,
    pub until: usize,
    pub left: usize,
    pub right: usize,
    pub digits: usize,
}

#[derive(Clone, Copy)]
pub enum Line {
    Passed,
    Malformed,
    Holds(Case),
}

// The place of the first such byte from a place on, or the end.
pub fn end_from(s: &[u8], at: usize, stop: u8) -> usize
    ensures { result ≡ end_from stop s.now at }
{
    for i in at..s.len() {
        if s[i] == stop {
            return i;
        }
    }
    at.max(s.len())
}

// The place after it, or the end.
pub fn after_from(s: &[u8], at: usize, stop: u8) -> usize
    ensures { result ≡ after_from stop s.now at }
{
    let e = end_from(s, at, stop);
    if e < s.len() { e + 1 } else { s.len() }
}

fn between(low: u8, high: u8, b: u8) -> bool
    ensures { result ≡ between low high b }
{
    low <= b && b <= high
}

fn dash_or_letter(b: u8) -> bool
    ensures { result ≡ dash_or_letter b }
{
    b == b'-' || between(b'a', b'z', b)
}

fn in_class(class: Class, b: u8) -> bool
    ensures { result ≡ in_class class b }
{
    match class {
        Class::Digit => between(b'0', b'9', b),
        Class::Hex => between(b'0', b'9', b) || between(b'a', b'f', b),
        Class::Name => between(b'0', b'9', b) || dash_or_letter(b),
    }
}

// Whether every byte is of a class.
fn all_in(class: Class, s: &[u8]) -> bool
    ensures { result ≡ all (in_class class) s.now }
{
    s.iter().all(|b| in_class(class, *b))
}

// The number that digits stand for.
fn value(s: &[u8]) -> usize
    requires { (length s.now ≤ most_digits) × (all (in_class Class.Digit) s.now ≡ true) }
    ensures { result ≡ value s.now }
{
    let mut n = 0;
    for b in s {
        n = 10 * n + usize::from(*b - b'0');
    }
    n
}

// A number in decimal; none where the bytes are not one that fits.
fn number(s: &[u8]) -> Option<usize>
    ensures { result ≡ number_of s.now }
{
    if s.is_empty() || MOST_DIGITS < s.len() || !all_in(Class::Digit, s) {
        return None;
    }
    Some(value(s))
}

fn hex_digit(b: u8) -> u8
    requires { in_class Class.Hex b ≡ true }
    ensures { (result ≡ hex_digit b) × (result < 16) }
{
    if b < 58 { b - 48 } else { b - 87 }
}

// The bytes that digits stand for, stored from the start on.
fn decode_all(s: &[u8], n: usize, out: &mut [u8])
    requires { (2 * n ≤ length s.now) × (n ≤ length out.old) × (all (in_class Class.Hex) s.now ≡ true) }
    ensures { out.new ≡ tabulate (byte_of s.now) n ++ drop n out.old }
{
    for i in 0..n {
        out[i] = 16 * hex_digit(s[2 * i]) + hex_digit(s[2 * i + 1]);
    }
}

// The bytes that hex digits stand for, and how many there are. Without room, or where the digits are not hex digits by
// twos, there are none, and the slice is left as it is.
pub fn decode(s: &[u8], out: &mut [u8]) -> Option<usize>
    ensures { Decoded s.now out.old out.new result }
{
    let n = s.len() / 2;
    if s.len() % 2 != 0 || out.len() < n || !all_in(Class::Hex, s) {
        return None;
    }
    decode_all(s, n, out);
    Some(n)
}

fn passed_over(line: &[u8]) -> bool
    ensures { result ≡ passed_over line.now }
{
    line.is_empty() || line[0] == HASH
}

// A name of one byte at least, of bytes that a name may have.
fn wrong_name(name: &[u8]) -> bool
    ensures { result ≡ wrong_name name.now }
{
    name.is_empty() || !all_in(Class::Name, name)
}

// The number that stands at a place of a line.
fn number_at(line: &[u8], at: usize) -> Option<usize>
    requires { at ≤ length line.now }
    ensures { result ≡ number_of (field_at line.now at) }
{
    let e = end_from(line, at, SPACE);
    number(&line[at..e])
}

// Whether the name that stands at a place of a line is none.
fn wrong_name_at(line: &[u8], at: usize) -> bool
    requires { at ≤ length line.now }
    ensures { result ≡ wrong_name (field_at line.now at) }
{
    let e = end_from(line, at, SPACE);
    wrong_name(&line[at..e])
}

// The call that a word names.
fn call_of(word: &[u8]) -> Option<Call>
    ensures { result ≡ call_of word.now }
{
    if word == b"read".as_slice() {
        Some(Call::Read)
    } else if word == b"set".as_slice() {
        Some(Call::Set)
    } else if word == b"compare".as_slice() {
        Some(Call::Compare)
    } else if word == b"all".as_slice() {
        Some(Call::All)
    } else if word == b"rounds".as_slice() {
        Some(Call::Rounds)
    } else {
        None
    }
}

// The case of a call whose name stands at a place of a line.
fn case_of(call: Call, line: &[u8], at: usize) -> Line
    requires { at ≤ length line.now }
    ensures { result ≡ case_of call line.now at }
{
    if wrong_name_at(line, at) {
        return Line::Malformed;
    }
    let until = end_from(line, at, SPACE);
    let p = after_from(line, at, SPACE);
    let Some(left) = number_at(line, p) else {
        return Line::Malformed;
    };
    let q = after_from(line, p, SPACE);
    let Some(right) = number_at(line, q) else {
        return Line::Malformed;
    };
    let digits = after_from(line, q, SPACE);
    Line::Holds(Case {
        call,
        name: at,
        until,
        left,
        right,
        digits,
    })
}

// What a line holds.
pub fn line_of(line: &[u8]) -> Line
    ensures { result ≡ line_of line.now }
{
    if passed_over(line) {
        return Line::Passed;
    }
    let word = end_from(line, 0, SPACE);
    let Some(call) = call_of(&line[..word]) else {
        return Line::Malformed;
    };
    case_of(call, line, after_from(line, 0, SPACE))
}
