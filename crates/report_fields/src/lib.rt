// The fields of a report's text, from the answer bytes. A byte beyond the end counts as 0, and a count above its limit as the limit.
#![tactic(auto)]

ghost use Rattle.std.specs.Prelude.{◌≡◌, [], ◌∷◌, ◌+◌, ◌*◌, ◌≤◌, ◌<◌, length, get_or};
ghost use Rattle.text.specs.Decimal.{decimal};
ghost use Rattle.text.specs.Lines.{field};
ghost use Rattle.comparison.specs.SheetBytes.{word};
ghost use Rattle.comparison.specs.Print.{plus, more_threads, threads_text};
ghost use Rattle.text.specs.Slices.{Stored};
ghost use Rattle.report_fields.specs.AnswerFields.{count_in, thread_count, threads_in, letter_of, reply_of};

const MAX_MEMBERS: usize = 512;

const MAX_THREADS: usize = 8;

const NO_REPLY: usize = 65535;

// A byte, or 0 beyond the end.
pub fn byte_in(s: &[u8], at: usize) -> usize
    ensures { (result ≡ get_or s.now at 0) × (result < 256) }
{
    s.get(at).map_or(0, |b| usize::from(*b))
}

// Two bytes, the low one first.
fn word_in(s: &[u8], at: usize) -> usize
    requires { at < 65536 }
    ensures { (result ≡ word s.now at) × (result < 65536) }
{
    byte_in(s, at) + 256 * byte_in(s, at + 1)
}

// A count of members or of steps.
pub fn count_in(s: &[u8], at: usize) -> usize
    requires { at < 65536 }
    ensures { (result ≡ count_in s.now at) × (result ≤ 512) }
{
    word_in(s, at).min(MAX_MEMBERS)
}

// The count of threads in the member that begins at a place.
pub fn thread_count(s: &[u8], from: usize) -> usize
    requires { from < 65536 }
    ensures { (result ≡ thread_count s.now from) × (result ≤ 8) }
{
    byte_in(s, from + 2).min(MAX_THREADS)
}

// Stores a byte.
pub fn put_byte(out: &mut [u8], at: usize, b: u8) -> usize
    requires { at < length out.old }
    ensures { Stored out.old at (b ∷ []) out.new result }
{
    out[at] = b;
    at + 1
}

// Stores a two-byte number as a field.
pub fn put_word(s: &[u8], from: usize, out: &mut [u8], at: usize) -> usize
    requires { (from < 65536) × (at + 21 ≤ length out.old) }
    ensures { Stored out.old at (field (word s.now from)) out.new result × (result ≤ at + 6) }
{
    text::put_field(out, at, word_in(s, from) as u64)
}

// Stores a plus sign and a thread.
fn put_next_thread(s: &[u8], from: usize, out: &mut [u8], at: usize) -> usize
    requires { at + 21 ≤ length out.old }
    ensures { Stored out.old at (plus ∷ decimal (get_or s.now from 0)) out.new result × (result ≤ at + 4) }
{
    let next = put_byte(out, at, b'+');
    text::put_number(out, next, byte_in(s, from) as u64)
}

// Stores n threads, each after a plus sign.
fn put_more_threads(s: &[u8], from: usize, n: usize, out: &mut [u8], at: usize) -> usize
    requires { (from < 65536) × (n ≤ 8) × (at + 4 * n + 21 ≤ length out.old) }
    ensures { Stored out.old at (more_threads (threads_in s.now from n)) out.new result × (result ≤ at + 4 * n) }
{
    let mut next = at;
    for i in 0..n {
        next = put_next_thread(s, from + i, out, next);
    }
    next
}

// Stores n threads joined by plus signs, or a hyphen for none.
pub fn put_threads(s: &[u8], from: usize, n: usize, out: &mut [u8], at: usize) -> usize
    requires { (from < 65530) × (n ≤ 8) × (at + 80 ≤ length out.old) }
    ensures { Stored out.old at (threads_text (threads_in s.now from n)) out.new result × (result ≤ at + 32) }
{
    if n == 0 {
        return put_byte(out, at, b'-');
    }
    let next = text::put_number(out, at, byte_in(s, from) as u64);
    put_more_threads(s, from + 1, n - 1, out, next)
}

// L for side 0, R for any other.
pub fn side_letter(side: usize) -> u8
    ensures { result ≡ letter_of side }
{
    if side == 0 { b'L' } else { b'R' }
}

// Stores the position of a reply, or a hyphen for none.
pub fn put_reply(s: &[u8], from: usize, out: &mut [u8], at: usize) -> usize
    requires { (from < 65536) × (at + 20 ≤ length out.old) }
    ensures { Stored out.old at (reply_of (word s.now from)) out.new result × (result ≤ at + 5) }
{
    let number = word_in(s, from);
    if number == NO_REPLY {
        return put_byte(out, at, b'-');
    }
    text::put_number(out, at, number as u64)
}
