// A line that tells of a set in the work slice: how many members and moves it has, and a checksum over their numbers.
#![tactic(auto)]

ghost use Rattle.std.specs.Prelude.{◌≡◌, [], ◌∷◌, ◌+◌, ◌≤◌, get_or};
ghost use Rattle.text.specs.Lines.{line};
ghost use Rattle.text.specs.Slices.{Written};
ghost use Rattle.set_text.specs.SetText.{mixed_of, mix_all, mix_moves, checksum_of, whole_word};

use work_layout::{MEMBERS, MOVES, SPANS};

// A number mixed into a checksum.
fn mixed(sum: u32, x: u32) -> u32
    ensures { result ≡ mixed_of sum x }
{
    sum.wrapping_mul(31).wrapping_add(x)
}

// The number at a place, 0 beyond the slice.
fn number_at(work: &[u32], i: usize) -> u32
    ensures { result ≡ get_or work.now i 0 }
{
    work.get(i).copied().unwrap_or(0)
}

// k numbers from a place on mixed into a checksum.
fn mix_numbers(work: &[u32], from: usize, k: usize, sum: u32) -> u32
    requires { from + k ≤ 262144 }
    ensures { result ≡ mix_all work.now from k sum }
{
    let mut s = sum;
    for i in 0..k {
        s = mixed(s, number_at(work, from + i));
    }
    s
}

// How many moves the member at place i has, and these moves, mixed into a checksum.
fn mix_moves(work: &[u32], i: usize, sum: u32) -> u32
    requires { i ≤ 512 }
    ensures { result ≡ mix_moves work.now i sum }
{
    let span = number_at(work, SPANS + i);
    let s = mixed(sum, span % 65536);
    mix_numbers(
        work,
        MOVES + (span / 65536) as usize,
        (span % 65536) as usize,
        s,
    )
}

// The checksum of a set of n members: their numbers, then for each how many moves it has and these.
pub fn checksum(work: &[u32], n: usize) -> u32
    requires { n ≤ 512 }
    ensures { result ≡ checksum_of work.now n }
{
    let mut s = mix_numbers(work, MEMBERS, 3 * n, 0);
    for i in 0..n {
        s = mix_moves(work, i, s);
    }
    s
}

// The line of a set that is whole: its members and moves, counted, and a checksum. A slice without room is left as it is, and
// the length is then 0.
pub fn set_line(members: usize, moves: usize, sum: u32, out: &mut [u8]) -> usize
    ensures { Written (line whole_word (members ∷ moves ∷ sum ∷ [])) out.old out.new result }
{
    text::number_line(
        out,
        b"WHOLE",
        &[members as u64, moves as u64, u64::from(sum)],
    )
}
