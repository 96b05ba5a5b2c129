// Nodes with threads beside them, stored in the work slice until they are visited.
#![tactic(auto)]

ghost use Rattle.std.specs.Prelude.{◌≡◌, ℕ, ◌+◌, ◌*◌, ◌≤◌, ◌<◌, length};
ghost use Rattle.threads_beside.specs.Ranks.{rank_of};
ghost use Rattle.packing.specs.Packing.{PackedIn};
ghost use Rattle.threads_beside.specs.ThreadsBeside.{node_beside, node_for};
ghost use Rattle.nodes_to_visit.specs.NodesToVisit.{PendingPacked, pending_one, Pushed, Entered};
ghost use Rattle.nodes_to_visit.specs.EntryPlaces.{SideIs, SpotIs};
ghost use Rattle.work_layout.specs.WorkLayout.{pending_end};

use packing::Numbers;
use threads_beside::NodeBeside;
use work_layout::PENDING;

// How an entry stands beside one that is to be entered: it is the same, it stays above it, or neither.
enum Relation {
    Same,
    Above,
    Neither,
}

// Stores e as entry n.
pub fn push(work: &mut [u32], n: usize, e: NodeBeside)
    requires { (n < 64) × (pending_end ≤ length work.old) × (e.count ≤ 8) }
    ensures { Pushed work.old n (node_beside e) work.new }
{
    let x = e.numbers();
    number_lists::put_three(work, PENDING + 3 * n, x.a, x.b, x.c);
}

// The numbers of entry i.
pub fn pending_at(work: &[u32], i: usize) -> Numbers
    requires { (i < 64) × (pending_end ≤ length work.now) × PendingPacked work.now i }
    ensures { PackedIn result × (node_for result ≡ pending_one work.now i) }
{
    Numbers {
        a: work[PENDING + 3 * i],
        b: work[PENDING + 3 * i + 1],
        c: work[PENDING + 3 * i + 2],
    }
}

// A node's rank: higher than that of every node it is made of.
pub fn rank_of(node: usize) -> usize
    ensures { result ≡ rank_of node }
{
    node
}

// An entry y beside x. It stays above x where its two numbers of threads are the same and its node has a rank that is not below that
// of x and is below n.
fn side(y: Numbers, x: Numbers, n: usize) -> Relation
    ensures { SideIs rank_of n x y result }
{
    if y.b != x.b {
        return Relation::Neither;
    }
    if y.c != x.c {
        return Relation::Neither;
    }
    if y.a == x.a {
        return Relation::Same;
    }
    let rank = rank_of((y.a / 256) as usize);
    if rank < rank_of((x.a / 256) as usize) {
        return Relation::Neither;
    }
    if rank < n {
        Relation::Above
    } else {
        Relation::Neither
    }
}

// Where x is among the first `top` entries, or is to be put in: below those of the last ones that stay above it.
fn spot_of(work: &[u32], top: usize, n: usize, x: Numbers) -> Result<usize, usize>
    requires { (top < 64) × (pending_end ≤ length work.now) × ((i : ℕ) → i < top → PendingPacked work.now i) }
    ensures { SpotIs rank_of work.now top n x result }
{
    for i in (0..top).rev() {
        let y = pending_at(work, i);
        match side(y, x, n) {
            Relation::Same => return Ok(i),
            Relation::Above => {}
            Relation::Neither => return Err(i + 1),
        }
    }
    Err(0)
}

// Enters a node with the threads of e beside it among the nodes to visit, of which there are `top`: nothing is stored where it is
// there already among the last ones; otherwise it is put below those of the last ones that have the same two numbers of threads and
// a rank not below its own and below n. Gives how many there are then.
pub fn enter(work: &mut [u32], top: usize, n: usize, node: u16, e: NodeBeside) -> usize
    requires { (top < 64) × (pending_end ≤ length work.old) × (e.count ≤ 8) × ((i : ℕ) → i < top → PendingPacked work.old i) }
    ensures { Entered rank_of work.old top n (record { node = node; threads = (node_beside e).threads }) work.new result }
{
    let threads = e.threads;
    let entry = NodeBeside {
        node,
        count: e.count,
        threads,
    };
    let x = entry.numbers();
    match spot_of(work, top, n, x) {
        Ok(_) => top,
        Err(spot) => {
            let at = PENDING + 3 * spot;
            let end = PENDING + 3 * top;
            number_lists::shift_up::<3>(work, at, end);
            number_lists::put_three(work, at, x.a, x.b, x.c);
            top + 1
        }
    }
}
