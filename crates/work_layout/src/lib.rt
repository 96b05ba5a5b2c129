// Where everything stands in the work slice, phase by phase (specs/WorkLayout says what each part has), and the functions that
// read one number of a part; a work slice made, and one cleared.
#![tactic(auto)]

ghost use Rattle.std.specs.Prelude.{◌≡◌, ◌≤◌, length, replicate};
ghost use Rattle.work_layout.specs.WorkLayout.{work_end, member_room};
ghost use Rattle.work_layout.specs.SetLayout.{member_at, numbers_at, first_move, move_total};
ghost use Rattle.comparison.specs.Outcome.{cleared};
ghost use Rattle.work_layout.specs.ClassLayout.{class_in};

use packing::Numbers;

// Numbers in the work slice that are used.
pub const WORK_END: usize = 16384;

// Members, and moves of all members together, that there is room for.
pub const MEMBER_ROOM: usize = 512;

pub const MOVE_ROOM: usize = 4096;

// A table of members: where its ids begin, and how long it is.
pub const TABLE_IDS: usize = 1536;

pub const TABLE_LENGTH: usize = 2048;

// While the set is worked out: the closure of every set.
pub const CLOSURES: usize = 0;

// By id: where its moves stand.
pub const SPANS: usize = 4096;

// The moves.
pub const MOVES: usize = 4608;

// The members: a table.
pub const MEMBERS: usize = 8704;

// Visited nodes: a table.
pub const MARKS: usize = 10752;

// Nodes to visit, three numbers each.
pub const PENDING: usize = 12800;

// The shelf of labels: entries, labels, and the place after them.
pub const HEADS: usize = 12992;

pub const LISTS: usize = 13184;

pub const LISTS_END: usize = 16384;

// While the set is put into its order: by id its place; members and spans by their places.
pub const PLACES: usize = 10752;

pub const SPARE_MEMBERS: usize = 12800;

pub const SPARE_SPANS: usize = 14336;

// While classes are split: for each move the place of its kept dominating move.
pub const DOMINATORS: usize = 0;

// By place: how many lines, and the class.
pub const LINE_TOTALS: usize = 10240;

pub const CLASSES: usize = 10752;

// By class: its birth, and the place of its chosen member.
pub const BIRTHS: usize = 11264;

pub const CHOSEN: usize = 11776;

// The lines of all members.
pub const LINES: usize = 12288;

// After the rounds: the steps of the trail, three numbers each.
pub const STEPS: usize = 0;

// What stands for no place.
pub const NONE: u32 = 65535;

// Where the moves of the member at place i begin, and how many there are.
pub fn first_move(work: &[u32], i: usize) -> usize
    requires { (i ≤ member_room) × (work_end ≤ length work.now) }
    ensures { result ≡ first_move work.now i }
{
    (work[SPANS + i] / 65536) as usize
}

pub fn move_total(work: &[u32], i: usize) -> usize
    requires { (i ≤ member_room) × (work_end ≤ length work.now) }
    ensures { result ≡ move_total work.now i }
{
    (work[SPANS + i] % 65536) as usize
}

// The numbers of the member at place i.
pub fn key_at(work: &[u32], i: usize) -> Numbers
    requires { (i ≤ member_room) × (work_end ≤ length work.now) }
    ensures { result ≡ numbers_at work.now i }
{
    Numbers {
        a: work[MEMBERS + 3 * i],
        b: work[MEMBERS + 3 * i + 1],
        c: work[MEMBERS + 3 * i + 2],
    }
}

pub fn store_at(work: &[u32], i: usize) -> u32
    requires { (i ≤ member_room) × (work_end ≤ length work.now) }
    ensures { result ≡ (member_at work.now i).store }
{
    work[MEMBERS + 3 * i] / 256
}

pub fn class_at(work: &[u32], i: usize) -> u32
    requires { (i ≤ member_room) × (work_end ≤ length work.now) }
    ensures { result ≡ class_in work.now i }
{
    work[CLASSES + i]
}

// A work slice, every number of which is 0.
pub fn work_room() -> [u32; WORK_END]
    ensures { result ≡ replicate work_end 0 }
{
    [0; WORK_END]
}

// The first 16,384 numbers set to 0.
pub fn clear_work(work: &mut [u32])
    requires { work_end ≤ length work.old }
    ensures { work.new ≡ cleared work.old }
{
    work[..WORK_END].fill(0);
}
