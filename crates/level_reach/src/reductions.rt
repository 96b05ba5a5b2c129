// The reductions of a configuration: a thread is walked node by node, and each tell or ask that it comes to gives one.
ghost use Rattle.std.specs.Prelude.{◌<◌};

use super::constraints;
use level_tables::{areas, numbers, pairs, threads};

// Nodes that wait to be looked at.
const MOST_WAITING: usize = 128;

// More nodes than these are not looked at inside one thread.
const MOST_VISITS: usize = 4096;

// Kept numbers: a node's kind stands in the slice as one, and is read for a single match.
const STOP: usize = 0;

const TELL: usize = 1;

const ASK: usize = 2;

const BOTH: usize = 3;

const EITHER: usize = 4;

const KIND: usize = 0;

const FIRST: usize = 1;

const SECOND: usize = 2;

const OPENED: usize = 3;

// A number of a node.
fn of_node(w: &[usize], node: usize, field: usize) -> usize {
    if node < 64 {
        numbers::in_entry(w, areas::NODES, node, field)
    } else {
        numbers::NONE
    }
}

// The threads that a node opens to, beside others; none where they are more than a list has.
fn opened_beside(w: &[usize], node: usize, beside: usize) -> Option<usize> {
    threads::merged(beside, of_node(w, node, OPENED))
}

// Notes that p reduces to this configuration; none where there is no room.
fn note(w: &mut [usize], p: usize, store: usize, list: usize) -> Option<()> {
    let t = pairs::enter(w, areas::CONFIGURATIONS, store, list)?;
    pairs::enter(w, areas::REDUCTIONS, p, t)?;
    Some(())
}

// An ask whose set the store has: its node's threads are opened beside the others.
fn note_ask(w: &mut [usize], p: usize, node: usize, beside: usize) -> Option<()> {
    let store = pairs::first(w, areas::CONFIGURATIONS, p);
    if !constraints::includes(store, of_node(w, node, FIRST)) {
        return Some(());
    }
    let list = opened_beside(w, of_node(w, node, SECOND), beside)?;
    note(w, p, store, list)
}

// A tell: its set is joined to the store.
fn note_tell(w: &mut [usize], p: usize, node: usize, beside: usize) -> Option<()> {
    let store = pairs::first(w, areas::CONFIGURATIONS, p);
    let sum = constraints::joined(w, store, of_node(w, node, FIRST));
    note(w, p, sum, beside)
}

// The depth with one node more that waits; none where there is no room.
fn push(w: &mut [usize], depth: usize, node: usize, beside: usize) -> Option<usize> {
    if MOST_WAITING <= depth {
        return None;
    }
    numbers::put_in_entry(w, areas::WAITING, depth, 0, node);
    numbers::put_in_entry(w, areas::WAITING, depth, 1, beside);
    Some(depth + 1)
}

// The same, with another node opened beside it.
fn push_beside(
    w: &mut [usize],
    depth: usize,
    node: usize,
    other: usize,
    beside: usize,
) -> Option<usize> {
    let list = opened_beside(w, other, beside)?;
    push(w, depth, node, list)
}

// An either: each of its nodes, the other dropped.
fn push_either(w: &mut [usize], depth: usize, node: usize, beside: usize) -> Option<usize> {
    let next = push(w, depth, of_node(w, node, FIRST), beside)?;
    push(w, next, of_node(w, node, SECOND), beside)
}

// A both: one part, with the other opened beside it.
fn push_both(w: &mut [usize], depth: usize, node: usize, beside: usize) -> Option<usize> {
    let a = of_node(w, node, FIRST);
    let b = of_node(w, node, SECOND);
    let next = push_beside(w, depth, a, b, beside)?;
    push_beside(w, next, b, a, beside)
}

// What one node gives beside other threads; the depth after it, or none where there was no room.
fn visit(w: &mut [usize], depth: usize, p: usize, node: usize, beside: usize) -> Option<usize> {
    match of_node(w, node, KIND) {
        STOP => {}
        TELL => note_tell(w, p, node, beside)?,
        ASK => note_ask(w, p, node, beside)?,
        BOTH => return push_both(w, depth, node, beside),
        EITHER => return push_either(w, depth, node, beside),
        _ => return None,
    }
    Some(depth)
}

// The node on top is looked at.
fn visit_top(w: &mut [usize], depth: usize, p: usize) -> Option<usize> {
    let top = depth.checked_sub(1)?;
    let node = numbers::in_entry(w, areas::WAITING, top, 0);
    let list = numbers::in_entry(w, areas::WAITING, top, 1);
    visit(w, top, p, node, list)
}

// The reductions by one thread, the others beside it; none where there is no room.
fn walk(w: &mut [usize], p: usize, thread: usize, beside: usize) -> Option<()> {
    let mut depth = push(w, 0, thread, beside)?;
    for _ in 0..MOST_VISITS {
        if depth == 0 {
            return Some(());
        }
        depth = visit_top(w, depth, p)?;
    }
    None
}

// The reductions by thread i, if there is one.
fn reduce_thread(w: &mut [usize], p: usize, i: usize) -> Option<()>
    requires { i < 8 }
{
    let list = pairs::second(w, areas::CONFIGURATIONS, p);
    let thread = threads::thread_at(list, i);
    if thread == threads::NO_THREAD {
        return Some(());
    }
    walk(w, p, thread, threads::without(list, i))
}

// The reductions of configuration p; none where there is no room.
pub(crate) fn reduce(w: &mut [usize], p: usize) -> Option<()> {
    for i in 0..8 {
        reduce_thread(w, p, i)?;
    }
    Some(())
}
