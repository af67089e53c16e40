// Rules 8 and 9: how many tuples hold both of two disks, counted for all pairs in one pass over the tuples.
ghost use Rattle.std.specs.Prelude.{◌≡◌, true, ℕ, ◌/◌, ◌≤◌, ◌<◌, eqb, length, All};
ghost use Rattle.design.specs.Count.{every};
ghost use Rattle.design.specs.Tuples.{Different, none_twice};
ghost use Rattle.design.specs.inner.Planes.{row_of, counted};
ghost use Rattle.design.specs.inner.Tally.{disk_at, tuples_of, MaskOf, AddedTuple, Tallied};

use crate::Shelf;
use crate::planes::{self, Planes};

// The disks of the tuple, a bit for each.
fn mask_of(tuple: &[u8]) -> u64
    requires { All (λ d. d < 64) tuple.now }
    ensures { MaskOf (disk_at tuple.now) (length tuple.now) result }
{
    tuple.iter().fold(0, |mask, d| mask | 1 << *d)
}

// Adds one at (d, e) for every two disks of the tuple, d = e among them.
fn tally_tuple(tuple: &[u8], counts: &mut Planes)
    requires below { All (λ d. d < 64) tuple.now }
    requires different { Different (disk_at tuple.now) (length tuple.now) }
    requires room { (d e : ℕ) → d < 64 → e < 64 → counted (row_of counts.old d) e ≤ 1024 }
    ensures { AddedTuple (disk_at tuple.now) (length tuple.now) counts.old counts.new }
{
    let mask = mask_of(tuple);
    for d in tuple {
        planes::add(&mut counts[usize::from(*d)], mask);
    }
}

// The number of tuples that hold both d and e, in lane e of row d. Inlined: out of line, the 5,632 bytes are cleared and copied once more
// in every call with a shelf.
#[inline(always)]
pub fn tally(disks: &[u8], k: usize) -> Planes
    requires few { (0 < k) × (length disks.now / k ≤ 1024) }
    requires below { All (λ d. d < 64) disks.now }
    requires different { none_twice (tuples_of k disks.now) ≡ true }
    ensures { Tallied (tuples_of k disks.now) (length disks.now / k) result }
{
    let mut counts = [[0; planes::DEPTH]; Shelf::V_MOST];
    for tuple in disks.chunks_exact(k) {
        tally_tuple(tuple, &mut counts);
    }
    counts
}

// Rule 8: each of the v disks is counted r times.
pub fn disks_even(counts: &Planes, v: usize, r: usize) -> bool
    requires { v ≤ 64 }
    ensures { result ≡ every v (λ d. eqb (counted (row_of counts.now d) d) r) }
{
    (0..v).all(|d| planes::count_of(&counts[d], d) == r)
}

// Rule 9: each two of the v disks are counted together lambda times. No count is as large as COUNTS, so then there must be no pair.
pub fn pairs_even(counts: &Planes, v: usize, lambda: usize) -> bool
    requires { v ≤ 64 }
    ensures { result ≡ every v (λ d. every d (λ e. eqb (counted (row_of counts.now d) e) lambda)) }
{
    if lambda >= planes::COUNTS {
        return v < 2;
    }
    (0..v).all(|d| planes::all_below(&counts[d], d, lambda))
}
