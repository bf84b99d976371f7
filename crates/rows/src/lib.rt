// Rows of cells that hold a list: the count, the entries, zeros. `at` is the cell of the count.
#![tactic(auto)]

ghost use Rattle.std.specs.Prelude.{◌≡◌, ◌<◌, if◌then◌else◌, ltb, get_or};
ghost use Rattle.layout.specs.Rows.{Readable, Pushable, pushed, swapped, seek, sift, wipe};

// One entry more.
pub fn push(t: &mut [u32], at: usize, x: u32)
    requires { Pushable t.old at }
    ensures { t.new ≡ pushed t.old at x }
{
    let n = t[at];
    let k = n as usize;
    t[at + 1 + k] = x;
    t[at] = n + 1;
}

// The place of the first x.
pub fn find(t: &[u32], at: usize, x: u32) -> Option<u32>
    requires { Readable t.now at }
    ensures { let n = get_or t.now at 0 in let k = seek t.now at x n 0 in result ≡ (if ltb k n then Some k else None) }
{
    let n = t[at] as usize;
    let entries = &t[at + 1..at + 1 + n];
    entries.iter().position(|y| *y == x).map(|i| i as u32)
}

// Is x in the row? Most rows are short, and the search ends at the first x: quicker there than the slice's `contains`, which tests cells in groups.
pub fn has(t: &[u32], at: usize, x: u32) -> bool
    requires { Readable t.now at }
    ensures { result ≡ ltb (seek t.now at x (get_or t.now at 0) 0) (get_or t.now at 0) }
{
    find(t, at, x).is_some()
}

// Entries equal to x leave the row; the others keep their order.
pub fn remove(t: &mut [u32], at: usize, x: u32)
    requires { Readable t.old at }
    ensures { t.new ≡ sift at x (get_or t.old at 0) 0 0 t.old }
{
    let n = t[at] as usize;
    let mut kept: u32 = 0;
    for i in 0..n {
        let y = t[at + 1 + i];
        t[at + 1 + i] = 0;
        if y == x {
            continue;
        }
        let k = kept as usize;
        t[at + 1 + k] = y;
        kept += 1;
    }
    t[at] = kept;
}

// The entry at a place leaves the row, and the last one moves there.
pub fn swap_remove(t: &mut [u32], at: usize, place: u32)
    requires readable { Readable t.old at }
    requires place_bound { place < get_or t.old at 0 }
    ensures { t.new ≡ swapped t.old at place }
{
    let n = t[at];
    let k = n as usize;
    let i = place as usize;
    let last = t[at + k];
    t[at + 1 + i] = last;
    t[at + k] = 0;
    t[at] = n - 1;
}

// The row is emptied.
pub fn clear(t: &mut [u32], at: usize)
    requires { Readable t.old at }
    ensures { t.new ≡ wipe at (get_or t.old at 0) 0 t.old }
{
    let n = t[at] as usize;
    t[at..at + 1 + n].fill(0);
}
