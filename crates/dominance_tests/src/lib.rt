// Tests of moves: which come below others, whether a kept dominating move still dominates, and where to look for another.
#![tactic(auto)]

ghost use Rattle.std.specs.Prelude.{◌≡◌, ◌&&◌, not, ◌+◌, ◌/◌, ◌%◌, ◌≤◌, length, eqb};
ghost use Rattle.work_layout.specs.Stores.{strictly_below, includes};
ghost use Rattle.work_layout.specs.SetLayout.{member_at};
ghost use Rattle.dominance_tests.specs.KeptNumbers.{KeptFits};
ghost use Rattle.work_layout.specs.WorkLayout.{work_end, member_room};
ghost use Rattle.work_layout.specs.ClassLayout.{class_in};

use work_layout::NONE;

// Whether move x has a label strictly below that of y, and a target whose store is inside that of y's.
pub fn comes_below(work: &[u32], x: u32, y: u32) -> bool
    requires { (x % 65536 ≤ member_room) × (y % 65536 ≤ member_room) × (work_end ≤ length work.now) }
    ensures { result ≡ (strictly_below (x / 65536) (y / 65536)
        && includes (member_at work.now (y % 65536)).store (member_at work.now (x % 65536)).store) }
{
    let a = x / 65536;
    let b = y / 65536;
    if a == b {
        return false;
    }
    if a & b != a {
        return false;
    }
    let s = work_layout::store_at(work, (x % 65536) as usize);
    let t = work_layout::store_at(work, (y % 65536) as usize);
    s & t == s
}

// Whether the kept dominating move still dominates a move into t.
pub fn still_dominated(work: &[u32], kept: u32, t: usize) -> bool
    requires { KeptFits kept × (t ≤ member_room) × (work_end ≤ length work.now) }
    ensures { result ≡ (not (eqb (kept % 65536) 65535)
        && eqb (class_in work.now (kept % 65536)) (class_in work.now t)) }
{
    let q = kept % 65536;
    if q == NONE {
        return false;
    }
    work_layout::class_at(work, q as usize) == work_layout::class_at(work, t)
}

// The place from which a dominating move is to be looked for.
pub fn look_from(kept: u32) -> usize
    ensures { (kept % 65536 ≡ 65535 → result ≡ kept / 65536) × ((kept % 65536 ≡ 65535 → ⊥) → result ≡ kept / 65536 + 1) }
{
    let k = (kept / 65536) as usize;
    if kept % 65536 == NONE { k } else { k + 1 }
}
