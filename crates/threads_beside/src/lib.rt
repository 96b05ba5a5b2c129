// A node with threads beside it: as three numbers, threads put among those beside it, a thread of a configuration taken out.
#![tactic(auto)]

ghost use Rattle.std.specs.Prelude.{◌≡◌, ◌+◌, ◌≤◌, ◌<◌, length, get_or, take, drop};
ghost use Rattle.packing.specs.Lists.{NotFalling};
ghost use Rattle.packing.specs.SortingLaws.{insert_all};
ghost use Rattle.packing.specs.Packing.{PackedIn};
ghost use Rattle.sheet_types.specs.SheetLimits.{max_nodes};
ghost use Rattle.sheet_types.specs.HeldSheet.{configuration, opened_in};
ghost use Rattle.sheet_types.specs.NodeTable.{opened_of};
ghost use Rattle.threads_beside.specs.ThreadsBeside.{node_beside, node_for, thread_at, PutBeside};

use packing::Numbers;
use sheet_types::{Configuration, TABLE_END, THREADS};

// A node to visit with at most eight threads beside it, in ascending order.
#[derive(Clone, Copy)]
pub struct NodeBeside {
    pub node: u16,
    pub count: u8,
    pub threads: [u8; 8],
}

impl NodeBeside {
    // The three numbers that stand for it.
    pub fn numbers(self) -> Numbers
        requires { self.count ≤ 8 }
        ensures { PackedIn result × (node_for result ≡ node_beside self) }
    {
        let threads = self.threads;
        let at = Configuration {
            store: self.node,
            count: self.count,
            threads,
        };
        at.numbers()
    }
}

// The node with threads beside it that three numbers stand for.
pub fn node_of(x: Numbers) -> NodeBeside
    requires { PackedIn x }
    ensures { (node_beside result ≡ node_for x) × (result.count ≤ 8) }
{
    let at = sheet_types::configuration_of(x);
    let threads = at.threads;
    NodeBeside {
        node: at.store,
        count: at.count,
        threads,
    }
}

// The first n threads, which stand in ascending order, with so many others put in their places.
fn insert_from(opened: &[u8], from: usize, more: usize, old: [u8; 8], n: usize) -> [u8; 8]
    requires { (from + more ≤ length opened.now) × (n + more ≤ 8) × NotFalling (take n old) }
    ensures { take (n + more) result ≡ insert_all (take n old) (take more (drop from opened.now)) }
{
    let mut threads = old;
    for i in 0..more {
        let longer = node_opening::insert(threads, n + i, opened[from + i]);
        threads = longer;
    }
    threads
}

// e with the threads that node q opens to put among its own; none where they are more than the limit.
pub fn put_beside(
    table: &[u8; TABLE_END],
    e: NodeBeside,
    q: usize,
    limit: usize,
) -> Option<NodeBeside>
    requires { (q < max_nodes) × (e.count ≤ limit) × (limit ≤ 8) × (get_or (opened_of table.now).counts q 0 ≤ 8) × NotFalling (node_beside e).threads }
    ensures { PutBeside (opened_in (opened_of table.now) q) e limit result }
{
    let n = e.count as usize;
    let more = sheet_types::count_in(table, q);
    let opened: &[u8] = table;
    if limit < n + more {
        return None;
    }
    let old = e.threads;
    let threads = insert_from(opened, THREADS + 8 * q, more, old, n);
    let count = (n + more) as u8;
    Some(NodeBeside {
        node: e.node,
        count,
        threads,
    })
}

// The thread at place i with the others beside it. Every place is walked, whatever i is, and the thread is read from e: otherwise the
// array that is shifted stays in memory (docs/PERFORMANCE.md).
pub fn thread_beside(e: Configuration, i: usize) -> NodeBeside
    requires { (i < e.count) × (e.count ≤ 8) }
    ensures { (node_beside result ≡ thread_at (configuration e) i) × (result.count + 1 ≡ e.count) }
{
    let node = e.threads[i] as u16;
    let mut threads = e.threads;
    for j in 0..7 {
        if i <= j {
            threads[j] = threads[j + 1];
        }
    }
    let count = e.count - 1;
    NodeBeside {
        node,
        count,
        threads,
    }
}
