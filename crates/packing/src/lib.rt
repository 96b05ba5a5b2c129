// A configuration as three numbers of 32 bits. Compared from the left they stand in the order of configurations.
#![tactic(auto)]

ghost use Rattle.std.specs.Prelude.{◌≡◌, ◌+◌, ◌*◌, ◌≤◌, ◌<◌, length, get_or, take, drop};
ghost use Rattle.packing.specs.Packing.{bytes_after, eight_bytes, side_of, stands_for, PackedIn, before};
ghost use Rattle.packing.specs.Bytes.{byte_of};

use std::cmp::Ordering;

// The store with the number of threads, the first four threads, the last four.
#[derive(Clone, Copy, PartialEq, Eq, PartialOrd, Ord)]
pub struct Numbers {
    pub a: u32,
    pub b: u32,
    pub c: u32,
}

impl Numbers {
    // Compared from the left. Written out: the derived order makes a byte of each field and tests it again, which the
    // search by halving pays for.
    pub fn compare(self, other: Numbers) -> Ordering
        ensures { result ≡ side_of (before self other) (before other self) }
    {
        if self.a < other.a {
            return Ordering::Less;
        }
        if other.a < self.a {
            return Ordering::Greater;
        }
        if self.b < other.b {
            return Ordering::Less;
        }
        if other.b < self.b {
            return Ordering::Greater;
        }
        if self.c < other.c {
            return Ordering::Less;
        }
        if other.c < self.c {
            return Ordering::Greater;
        }
        Ordering::Equal
    }
}

// Thread i of the first count, 0 where there is none.
fn byte_in(threads: &[u8], count: usize, i: usize) -> u32
    requires { count ≤ length threads.now }
    ensures { (result ≡ get_or (take count threads.now) i 0) × (result < 256) }
{
    if i < count { u32::from(threads[i]) } else { 0 }
}

// Four of the first count threads as one number.
fn four(threads: &[u8], count: usize, from: usize) -> u32
    requires { (from ≤ 4) × (count ≤ length threads.now) }
    ensures { result ≡ bytes_after 0 4 (drop from (take count threads.now)) }
{
    let a = byte_in(threads, count, from);
    let b = byte_in(threads, count, from + 1);
    let c = byte_in(threads, count, from + 2);
    let d = byte_in(threads, count, from + 3);
    a * 16777216 + b * 65536 + c * 256 + d
}

// The store and the number of threads as one number.
fn first_number(store: u16, count: usize) -> u32
    requires { count ≤ 8 }
    ensures { result ≡ store * 256 + count }
{
    (store as u32) * 256 + count as u32
}

// The numbers of a store with the first count threads.
pub fn numbers_of(store: u16, count: usize, threads: &[u8]) -> Numbers
    requires { (count ≤ 8) × (count ≤ length threads.now) }
    ensures { PackedIn result × (stands_for result ≡ record { store = store; threads = take count threads.now }) }
{
    let a = first_number(store, count);
    let b = four(threads, count, 0);
    let c = four(threads, count, 4);
    Numbers { a, b, c }
}

// Byte k of four, from the high end.
fn byte_of(word: u32, k: usize) -> u8
    ensures { result ≡ byte_of word k }
{
    match k {
        0 => (word / 16777216) as u8,
        1 => (word / 65536 % 256) as u8,
        2 => (word / 256 % 256) as u8,
        _ => (word % 256) as u8,
    }
}

// Thread j of the eight in two numbers.
pub fn thread_in(b: u32, c: u32, j: usize) -> u8
    requires { j < 8 }
    ensures { result ≡ get_or (eight_bytes b c) j 0 }
{
    if j < 4 {
        byte_of(b, j)
    } else {
        byte_of(c, j - 4)
    }
}

// All eight.
pub fn threads_of(b: u32, c: u32) -> [u8; 8]
    ensures { result ≡ eight_bytes b c }
{
    [
        byte_of(b, 0),
        byte_of(b, 1),
        byte_of(b, 2),
        byte_of(b, 3),
        byte_of(c, 0),
        byte_of(c, 1),
        byte_of(c, 2),
        byte_of(c, 3),
    ]
}
