// Numbers by place, and entries of four numbers.
ghost use Rattle.std.specs.Prelude.{◌≡◌, ◌≤◌, set};
ghost use Rattle.level_tables.specs.Numbers.{number_at, entry_place, in_entry, with_entry};

// Stands for no number.
// Kept a number: it stands in the slice, where each number is one usize, and what is read is handed on to be stored again.
pub const NONE: usize = usize::MAX;

const MOST_ENTRIES: usize = 65536;

// The number at a place, or none past the slice's end.
pub fn number_at(w: &[usize], i: usize) -> usize
    ensures { result ≡ number_at w.now i }
{
    w.get(i).copied().unwrap_or(NONE)
}

// Stores a number at a place; nothing past the slice's end.
pub fn put(w: &mut [usize], i: usize, x: usize)
    ensures { w.new ≡ set w.old i x }
{
    if i < w.len() {
        w[i] = x;
    }
}

// The place of number k of entry i, counted from an area's first entry on; for no such entry a place that no slice has, so that
// nothing is read there and nothing stored.
fn entry_place(first: usize, i: usize, k: usize) -> usize
    requires { first ≤ 65536 }
    ensures { result ≡ entry_place first i k }
{
    if 4 <= k {
        return NONE;
    }
    if i < MOST_ENTRIES {
        4 * (first + i) + k
    } else {
        NONE
    }
}

// Number k of entry i of an area.
pub fn in_entry(w: &[usize], first: usize, i: usize, k: usize) -> usize
    requires { first ≤ 65536 }
    ensures { result ≡ in_entry w.now first i k }
{
    number_at(w, entry_place(first, i, k))
}

// Stores number k of entry i of an area.
pub fn put_in_entry(w: &mut [usize], first: usize, i: usize, k: usize, x: usize)
    requires { first ≤ 65536 }
    ensures { w.new ≡ with_entry w.old first i k x }
{
    put(w, entry_place(first, i, k), x);
}
