// How a sheet that was read is held: types, the limits of a sheet, and a configuration as three numbers and back.
#![tactic(auto)]

ghost use Rattle.std.specs.Prelude.{◌≡◌, ◌≤◌, ◌<◌, min, length, get_or, nat_eq};
ghost use Rattle.std.specs.Int.Bits.{bit_or};
ghost use Rattle.sheet_reading.specs.SheetLimits.{max_nodes};
ghost use Rattle.packing.specs.Packing.{stands_for, PackedIn};
ghost use Rattle.sheet_types.specs.KindBytes.{kind_byte};
ghost use Rattle.sheet_types.specs.HeldSheet.{configuration};
ghost use Rattle.sheet_types.specs.NodeTable.{nodes_of, opened_of, movables_of};
ghost use Rattle.sheet_types.specs.AddedStore.{AddedTo};

use packing::Numbers;

// What reading a field or a section gives: a value and the place after it.
#[derive(Clone, Copy)]
pub struct Field {
    pub value: u16,
    pub next: usize,
}

// What a node is.
#[derive(Clone, Copy, PartialEq, Eq, Debug)]
pub enum Kind {
    Stop,
    Tell,
    Ask,
    Both,
    Either,
}

impl Kind {
    // The kind that a number is read as: a stop, a tell, an ask and a both for 0 to 3, and an either for every other.
    pub fn of(number: u16) -> Kind
        ensures { kind_byte result ≡ min number 4 }
    {
        match number {
            0 => Kind::Stop,
            1 => Kind::Tell,
            2 => Kind::Ask,
            3 => Kind::Both,
            _ => Kind::Either,
        }
    }
}

// The kind byte.
impl From<Kind> for u8 {
    ghost from_gives = { λ k n. n ≡ kind_byte k };

    fn from(kind: Kind) -> u8 {
        match kind {
            Kind::Stop => 0,
            Kind::Tell => 1,
            Kind::Ask => 2,
            Kind::Both => 3,
            Kind::Either => 4,
        }
    }
}

// One store and at most eight threads, in ascending order.
#[derive(Clone, Copy)]
pub struct Configuration {
    pub store: u16,
    pub count: u8,
    pub threads: [u8; 8],
}

impl Configuration {
    // Store 0 and no threads.
    pub const EMPTY: Configuration = Configuration {
        store: 0,
        count: 0,
        threads: [0; 8],
    };

    // The three numbers that stand for it.
    pub fn numbers(self) -> Numbers
        requires { self.count ≤ 8 }
        ensures { PackedIn result × (stands_for result ≡ configuration self) }
    {
        let threads = self.threads;
        let count = usize::from(self.count);
        packing::numbers_of(self.store, count, &threads)
    }

    // A constraint added: the configuration with the joined store, closed by the table of closures.
    #[tactic(auto, using(crate::specs::AddedStore::joined_added))]
    pub fn add(mut self, table: &[u32], b: u16) -> Configuration
        requires { bit_or b self.store < length table.now }
        ensures { AddedTo table.now b self result }
    {
        let sum = b | self.store;
        self.store = closure_table::closure_at(table, sum);
        self
    }
}

// The configuration that three numbers stand for.
pub fn configuration_of(x: Numbers) -> Configuration
    requires { PackedIn x }
    ensures { (configuration result ≡ stands_for x) × (result.count ≤ 8) }
{
    let threads = packing::threads_of(x.b, x.c);
    Configuration {
        store: (x.a / 256) as u16,
        count: (x.a % 256) as u8,
        threads,
    }
}

// The table of nodes. Its columns have a byte for each node: kind, first field in two bytes (a set is closed), second field, how many
// threads it opens to, and 1 where it can move, else 0. Then eight bytes for each node, the threads that it opens to.
pub const KINDS: usize = 0;

pub const FIRST_LOWS: usize = 64;

pub const FIRST_HIGHS: usize = 128;

pub const SECONDS: usize = 192;

pub const COUNTS: usize = 256;

pub const MOVABLES: usize = 320;

pub const THREADS: usize = 384;

pub const TABLE_END: usize = 896;

// The kind of node k.
#[tactic(auto, using(crate::specs::NodeTableLaws::column_at))]
pub fn kind_in(table: &[u8; TABLE_END], k: usize) -> u8
    requires { k < max_nodes }
    ensures { result ≡ get_or (nodes_of table.now).kinds k 0 }
{
    table[KINDS + k]
}

// The first field of node k.
#[tactic(auto, using(crate::specs::NodeTableLaws::first_at_lem))]
pub fn first_in(table: &[u8; TABLE_END], k: usize) -> u16
    requires { k < max_nodes }
    ensures { result ≡ get_or (nodes_of table.now).firsts k 0 }
{
    u16::from(table[FIRST_LOWS + k]) + 256 * u16::from(table[FIRST_HIGHS + k])
}

// The second field of node k.
#[tactic(auto, using(crate::specs::NodeTableLaws::column_at))]
pub fn second_in(table: &[u8; TABLE_END], k: usize) -> usize
    requires { k < max_nodes }
    ensures { (result ≡ get_or (nodes_of table.now).seconds k 0) × (result < 256) }
{
    usize::from(table[SECONDS + k])
}

// How many threads node k opens to.
#[tactic(auto, using(crate::specs::NodeTableLaws::column_at))]
pub fn count_in(table: &[u8; TABLE_END], k: usize) -> usize
    requires { k < max_nodes }
    ensures { (result ≡ get_or (opened_of table.now).counts k 0) × (result < 256) }
{
    usize::from(table[COUNTS + k])
}

// 1 where node k can move, else 0.
#[tactic(auto, using(crate::specs::NodeTableLaws::column_at))]
pub fn movable_in(table: &[u8; TABLE_END], k: usize) -> u8
    requires { k < max_nodes }
    ensures { result ≡ get_or (movables_of table.now) k 0 }
{
    table[MOVABLES + k]
}

// Whether node k can move.
#[tactic(auto, using(crate::specs::NodeTableLaws::column_at))]
pub fn can_move(table: &[u8; TABLE_END], k: usize) -> bool
    requires { k < max_nodes }
    ensures { result ≡ nat_eq (get_or (movables_of table.now) k 0) 1 }
{
    table[MOVABLES + k] == 1
}

// Rule i has its premise at 2 i and its conclusion at 2 i + 1.
#[derive(Drop)]
pub struct Sheet {
    pub facts: u16,
    pub rule_count: u16,
    pub node_count: u16,
    pub start_count: u16,
    pub rules: [u16; 64],
    pub table: [u8; TABLE_END],
    pub starts: [Configuration; 16],
}

impl Sheet {
    pub const MAX_FACTS: u16 = 12;

    pub const MAX_RULES: u16 = 32;

    pub const MIN_NODES: u16 = 1;

    pub const MAX_NODES: u16 = 64;

    pub const MIN_STARTS: u16 = 2;

    pub const MAX_STARTS: u16 = 16;

    pub const MAX_THREADS: u16 = 8;
}
