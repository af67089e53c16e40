// Where a disk stands among entries of the table.
ghost use Rattle.std.specs.Prelude.{◌≡◌, ◌==◌, ◌≤◌, ◌<◌, length, take, count_by, slice_index};

// How many of the entries are disk d. The back end turns this sum into vectors, and a count of what a filter lets through into a
// loop over one entry at a time.
pub fn times(entries: &[u8], d: u8) -> usize
    requires { length entries.now ≤ 2048 }
    ensures { result ≡ count_by (λ entry. entry == d) entries.now }
{
    entries.iter().map(|entry| usize::from(*entry == d)).sum()
}

// The entry that is disk d and has m such before it; there are more than m.
pub fn nth(entries: &[u8], d: u8, m: usize) -> usize
    requires { m < count_by (λ entry. entry == d) entries.now }
    ensures within { result < length entries.now }
    ensures found { slice_index entries.now result ≡ d }
    ensures before { count_by (λ entry. entry == d) (take result entries.now) ≡ m }
{
    let mut left = m;
    for (i, entry) in entries.iter().enumerate() {
        if *entry == d {
            if left == 0 {
                return i;
            }
            left -= 1;
        }
    }
    unreachable!()
}
