// The tests of a set that may give a label: by the table of closures, and by the labels found before.
#![tactic(auto)]

ghost use Rattle.std.specs.Prelude.{◌≡◌, ◌≤◌, ◌<◌, length};
ghost use Rattle.label_tests.specs.LabelTests.{InsideAt, passes_by};

// The first place from `from` on, before `end`, whose set is inside a.
fn inside_at(work: &[u32], from: usize, end: usize, a: u32) -> Option<usize>
    requires { (from ≤ end) × (end ≤ length work.now) }
    ensures { InsideAt work.now from end a result }
{
    for i in from..end {
        let l = work[i];
        if l & a == l {
            return Some(i);
        }
    }
    None
}

// A place from `first` on, before `end`, whose set is inside a, looked for from the hint on and then before it.
pub fn inside_from(work: &[u32], first: usize, end: usize, hint: usize, a: u32) -> Option<usize>
    requires { (first ≤ hint) × (hint ≤ end) × (end ≤ length work.now) }
    ensures { InsideAt work.now first end a result }
{
    inside_at(work, hint, end, a).or_else(|| inside_at(work, first, hint, a))
}

// Whether the facts that v has outside d close to no more outside d, and v makes c true, by the table. v has all facts of d.
pub fn passes(work: &[u32], d: usize, c: u32, v: usize) -> bool
    requires { (d ≤ v) × (v < length work.now) }
    ensures { result ≡ passes_by work.now d c v }
{
    let own = work[v - d] as usize;
    let joined = work[v];
    d | own == v && c & joined == c
}
