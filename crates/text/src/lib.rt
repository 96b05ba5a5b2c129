// Lines of output as bytes: words, decimal numbers, spaces and the line feed (document 01, "Known sheets", the program).
#![tactic(auto)]

ghost use Rattle.std.specs.Prelude.{◌≡◌, List, [], ◌∷◌, ◌+◌, ◌*◌, ◌%◌, ◌≤◌, ◌<◌, length};
ghost use Rattle.printed_lines.specs.Decimal.{digit_byte, decimal};
ghost use Rattle.text.specs.Powers.{FirstPlace};
ghost use Rattle.printed_lines.specs.Lines.{field, line_feed, line, refused_word, read_word};
ghost use Rattle.text.specs.Slices.{Stored, Written};

// The character of a number's last digit.
fn digit(x: u64) -> u8
    ensures { result ≡ digit_byte (x % 10) }
{
    48 + (x % 10) as u8
}

// The power of ten that leaves the first digit.
fn first_place(n: u64) -> u64
    ensures { FirstPlace n result }
{
    let mut q = 1;
    while n / q >= 10 {
        q *= 10;
    }
    q
}

// Stores a number's digits from a place on, and gives the place after them.
pub fn put_number(out: &mut [u8], at: usize, n: u64) -> usize
    requires { at + 20 ≤ length out.old }
    ensures { Stored out.old at (decimal n) out.new result × (result ≤ at + 20) }
{
    let mut q = first_place(n);
    out[at] = digit(n / q);
    let mut next = at + 1;
    while q > 1 {
        q /= 10;
        out[next] = digit(n / q);
        next += 1;
    }
    next
}

// Stores a text from a place on, and gives the place after it.
pub fn put_text(out: &mut [u8], at: usize, text: &[u8]) -> usize
    requires { at + length text.now ≤ length out.old }
    ensures { Stored out.old at text.now out.new result }
{
    let next = at + text.len();
    out[at..next].copy_from_slice(text);
    next
}

// Stores a space and a number.
pub fn put_field(out: &mut [u8], at: usize, n: u64) -> usize
    requires { at + 21 ≤ length out.old }
    ensures { Stored out.old at (field n) out.new result × (result ≤ at + 21) }
{
    out[at] = b' ';
    put_number(out, at + 1, n)
}

// Stores the line's end.
pub fn put_end(out: &mut [u8], at: usize) -> usize
    requires { at < length out.old }
    ensures { Stored out.old at (line_feed ∷ []) out.new result }
{
    out[at] = b'\n';
    at + 1
}

// Stores the line of a word and numbers.
pub fn put_line(out: &mut [u8], at: usize, word: &[u8], numbers: &[u64]) -> usize
    requires { at + length word.now + 21 * length numbers.now < length out.old }
    ensures { Stored out.old at (line word.now numbers.now) out.new result × (result ≤ at + length word.now + 21 * length numbers.now + 1) }
{
    let mut next = put_text(out, at, word);
    for n in numbers {
        next = put_field(out, next, *n);
    }
    put_end(out, next)
}

// What every line has room in.
const LINE_ROOM: usize = 128;

// The line of a word and numbers alone. A slice without room is left as it is, and the length is then 0.
pub fn number_line(out: &mut [u8], word: &[u8], numbers: &[u64]) -> usize
    requires { length word.now + 21 * length numbers.now < 128 }
    ensures { Written (line word.now numbers.now) out.old out.new result }
{
    if out.len() < LINE_ROOM {
        return 0;
    }
    put_line(out, 0, word, numbers)
}

// The line of a refusal: its number and its place.
pub fn refused_line(out: &mut [u8], number: u8, place: usize) -> usize
    ensures { Written (line refused_word (number ∷ place ∷ [])) out.old out.new result }
{
    number_line(out, b"REFUSED", &[u64::from(number), place as u64])
}

// The line of a sheet that was read: its facts, rules, nodes and starts, counted.
pub fn read_line(out: &mut [u8], facts: u16, rules: u16, nodes: u16, starts: u16) -> usize
    ensures { Written (line read_word (facts ∷ rules ∷ nodes ∷ starts ∷ [])) out.old out.new result }
{
    number_line(
        out,
        b"READ",
        &[
            u64::from(facts),
            u64::from(rules),
            u64::from(nodes),
            u64::from(starts),
        ],
    )
}
