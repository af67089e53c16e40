// The tests behind the rules of document 01, for a sheet and for a shelf value alike.
ghost use Rattle.std.specs.Prelude.{◌≡◌, ◌*◌, ◌≤◌, ◌<◌, ltb, eqb, length};
ghost use Rattle.std.specs.List.{list_all};
ghost use Rattle.design.specs.Tuples.{repeated, none_twice};
ghost use Rattle.design.specs.Loss.{loss_below};
ghost use Rattle.design.specs.Sheet.{within_limits};
ghost use Rattle.design.specs.Shelf.{is_shelf};
ghost use Rattle.design.specs.inner.Table.{is_table};
ghost use Rattle.design.specs.inner.Tally.{disk_at, tuples_of};

use crate::{Loss, Shelf, Table, tally};

// Rule 3. A garbage shelf value may have any numbers: b is bounded before it is multiplied.
pub fn within_limits(v: usize, k: usize, b: usize, t: usize, u: usize) -> bool
    ensures { result ≡ within_limits v k b t u }
{
    (Shelf::V_LEAST..=Shelf::V_MOST).contains(&v)
        && (Shelf::K_LEAST..=Shelf::K_MOST.min(v)).contains(&k)
        && (Shelf::B_LEAST..=Shelf::PLACES_MOST).contains(&b)
        && b * k <= Shelf::PLACES_MOST
        && (Shelf::T_LEAST..=Shelf::T_MOST).contains(&t)
        && u <= Shelf::U_MOST
}

// Rule 5.
pub fn disks_below(disks: &[u8], v: usize) -> bool
    ensures { result ≡ list_all (λ d. ltb d v) disks.now }
{
    disks.iter().all(|d| usize::from(*d) < v)
}

// The search for a disk twice in a tuple, over its positions: it stops at the first pair found. With loops over the slice and over its
// rest in their place, opening took a seventh longer where k is 16.
fn twice_in(tuple: &[u8]) -> Option<u8>
    ensures { result ≡ repeated (disk_at tuple.now) (length tuple.now) }
{
    let mut found = None;
    'search: for i in 0..tuple.len() {
        for j in i + 1..tuple.len() {
            if tuple[i] == tuple[j] {
                found = Some(tuple[i]);
                break 'search;
            }
        }
    }
    found
}

// Rule 6, of tuples of k.
pub fn none_twice(disks: &[u8], k: usize) -> bool
    requires { 0 < k }
    ensures { result ≡ none_twice (tuples_of k disks.now) }
{
    disks.chunks_exact(k).all(|tuple| twice_in(tuple).is_none())
}

// Whether all entries are zero: so is then what they come to by "or", with no way out of the loop, which the back end turns into vectors.
fn all_zero(entries: &[u8]) -> bool
    ensures { result ≡ list_all (λ x. eqb x 0) entries.now }
{
    entries.iter().fold(0, |any, entry| any | *entry) == 0
}

#[tactic(auto, unfolding(crate::specs::Loss::loss_below))]
fn loss_below(loss: Loss, v: usize) -> bool
    ensures { result ≡ loss_below loss v }
{
    match loss.lost {
        None => true,
        Some(d) => usize::from(d) < v,
    }
}

// The part of number 10 that is on the table: zero past b·k, and rules 5, 6, 8 and 9.
fn is_table(table: &Table, v: usize, k: usize, b: usize, r: usize, lambda: usize) -> bool
    requires { (2 ≤ k) × (v ≤ 64) × (b * k ≤ 2048) }
    ensures { result ≡ is_table table.now v k b r lambda }
{
    let (disks, rest) = table.split_at(b * k);
    if !all_zero(rest) || !disks_below(disks, v) || !none_twice(disks, k) {
        return false;
    }
    let counts = tally::tally(disks, k);
    tally::disks_even(&counts, v, r) && tally::pairs_even(&counts, v, lambda)
}

// Number 10, by the same tests as opening.
pub fn is_shelf(shelf: Shelf) -> bool
    ensures { result ≡ is_shelf shelf }
{
    let v = shelf.v;
    let k = shelf.k;
    let b = shelf.b;
    within_limits(v, k, b, shelf.T, shelf.u)
        && is_table(&shelf.table, v, k, b, shelf.r, shelf.lambda)
        && loss_below(shelf.loss, v)
}
