// The members of a set in a lent slice: kept in order of discovery, found by halving in ascending order.
#![tactic(auto)]

ghost use Rattle.std.specs.Prelude.{◌≡◌, ◌+◌, ◌*◌, ◌≤◌, ◌<◌, length};
ghost use Rattle.packing.specs.Frames.{SameOutside};
ghost use Rattle.packing.specs.Orders.{configuration_before};
ghost use Rattle.work_layout.specs.WorkLayout.{table_length, member_room};
ghost use Rattle.packing.specs.Packing.{side_of, stands_for, PackedIn};
ghost use Rattle.member_table.specs.MemberTable.{numbers_in, member_in, id_in, placed_in, Kept, part_at};
ghost use Rattle.member_table.specs.MemberSearch.{Placed};
ghost use Rattle.member_table.specs.EntryFound.{EntryIn};
ghost use Rattle.member_table.specs.MemberEntered.{PutIn};

use packing::Numbers;
use std::cmp::Ordering;
use work_layout::{TABLE_IDS, TABLE_LENGTH};

// A member's id, the number of members, and the member's place in the order.
#[derive(Clone, Copy)]
pub struct Entry {
    pub id: usize,
    pub members: usize,
    pub at: usize,
}

// The id at place j of the order of n members.
fn id_in(work: &[u32], n: usize, j: usize) -> usize
    requires { Kept work.now n × (j < n) }
    ensures { (result ≡ id_in work.now j) × (result < n) }
{
    work[TABLE_IDS + j] as usize
}

// The three numbers of a member.
fn key_in(work: &[u32], n: usize, id: usize) -> Numbers
    requires { Kept work.now n × (id < n) }
    ensures { result ≡ numbers_in work.now id }
{
    Numbers {
        a: work[3 * id],
        b: work[3 * id + 1],
        c: work[3 * id + 2],
    }
}

// The member at place j of the order beside a configuration.
fn side(work: &[u32], n: usize, j: usize, x: Numbers) -> Ordering
    requires { Kept work.now n × PackedIn x × (j < n) }
    ensures { result ≡ side_of (configuration_before (placed_in work.now j) (stands_for x)) (configuration_before (stands_for x) (placed_in work.now j)) }
{
    let id = id_in(work, n, j);
    let key = key_in(work, n, id);
    key.compare(x)
}

// The place of a configuration in the order of n members, by halving: where it stands, or where it is to be put in.
fn place(work: &[u32], n: usize, x: Numbers) -> Result<usize, usize>
    requires { Kept work.now n × PackedIn x }
    ensures { Placed work.now n (stands_for x) result }
{
    let mut low: usize = 0;
    let mut high: usize = n;
    while low < high {
        let mid = low + (high - low) / 2;
        match side(work, n, mid, x) {
            Ordering::Less => low = mid + 1,
            Ordering::Equal => return Ok(mid),
            Ordering::Greater => high = mid,
        }
    }
    Err(low)
}

// Puts member n in at a place of the order.
fn put_in(work: &mut [u32], n: usize, at: usize, x: Numbers)
    requires { (at ≤ n) × (n < member_room) × (table_length ≤ length work.old) }
    ensures { PutIn work.old n at x work.new }
{
    number_lists::shift_up::<1>(work, TABLE_IDS + at, TABLE_IDS + n);
    work[TABLE_IDS + at] = n as u32;
    number_lists::put_three(work, 3 * n, x.a, x.b, x.c);
}

// Enters a configuration, unless it is a member already; none where there are limit members.
fn enter(work: &mut [u32], n: usize, limit: usize, x: Numbers) -> Option<Entry>
    requires { Kept work.old n × PackedIn x × (n ≤ limit) × (limit ≤ member_room) }
    ensures { EntryIn work.old n limit (stands_for x) work.new result }
{
    match place(work, n, x) {
        Ok(at) => {
            let id = id_in(work, n, at);
            Some(Entry { id, members: n, at })
        }
        Err(at) => {
            if n == limit {
                return None;
            }
            put_in(work, n, at, x);
            Some(Entry {
                id: n,
                members: n + 1,
                at,
            })
        }
    }
}

// The same in the part of a longer slice that starts at base.
pub fn enter_at(work: &mut [u32], base: usize, n: usize, limit: usize, x: Numbers) -> Option<Entry>
    requires { Kept (part_at work.old base) n × PackedIn x × (n ≤ limit) × (limit ≤ member_room) }
    ensures { EntryIn (part_at work.old base) n limit (stands_for x) (part_at work.new base) result
        × SameOutside base (base + table_length) work.old work.new }
{
    let end = base + TABLE_LENGTH;
    enter(&mut work[base..end], n, limit, x)
}

// The id at place j of the order, in the part that starts at base.
pub fn id_at(work: &[u32], base: usize, n: usize, j: usize) -> usize
    requires { Kept (part_at work.now base) n × (j < n) }
    ensures { (result ≡ id_in (part_at work.now base) j) × (result < n) }
{
    let end = base + TABLE_LENGTH;
    id_in(&work[base..end], n, j)
}

// The three numbers of a member, in the part that starts at base.
pub fn key_of(work: &[u32], base: usize, n: usize, id: usize) -> Numbers
    requires { Kept (part_at work.now base) n × (id < n) }
    ensures { PackedIn result × (stands_for result ≡ member_in (part_at work.now base) id) }
{
    let end = base + TABLE_LENGTH;
    key_in(&work[base..end], n, id)
}

// The store of a member, in the part that starts at base.
pub fn store_of(work: &[u32], base: usize, n: usize, id: usize) -> u16
    requires { Kept (part_at work.now base) n × (id < n) }
    ensures { result ≡ (member_in (part_at work.now base) id).store }
{
    let key = key_of(work, base, n, id);
    (key.a / 256) as u16
}
