// For the layer above: the same placement of a shelf that has passed rule 10, which is not tried again here.
ghost use Rattle.std.specs.Prelude.{◌≡◌, true, false, ℕ, ◌*◌, ◌^◌, ◌≤◌, ◌<◌, get_or, IfOk, IfErr};
ghost use Rattle.design.specs.declared.Refusal.TheVariants.{NotAShelf};
ghost use Rattle.design.specs.Shelf.{is_shelf};
ghost use Rattle.placement.specs.Layout.{layout_in, stripes, addresses, offsets, split_of, SplitIn, place_in};
ghost use Rattle.placement.specs.Entries.{ranks_of, entries_of};
ghost use Rattle.placement.specs.Placed.{spot_of, stands_at};

pub use crate::slots::{index_of, position_of};
use crate::{LookUp, Spot, seek};
use design::{Refusal, Shelf, Table};

// The split of a stripe, and the parity's position in it.
#[derive(Clone, Copy)]
pub struct Split {
    pub full_table: usize,
    pub copy: usize,
    pub tuple: usize,
    pub parity: usize,
}

#[derive(Clone, Copy)]
pub struct Place {
    pub disk: usize,
    pub offset: usize,
}

// A number for each entry of the table.
pub type PerEntry = [u16; Shelf::PLACES_MOST];

// The steps of document 01, from the stripe on.
#[tactic(auto, unfolding(crate::specs::Layout::split_of))]
pub fn split_of(k: usize, b: usize, stripe: usize) -> Split
    requires { (1 ≤ k) × (1 ≤ b) × (b * k < 2 ^ 64) }
    ensures { result ≡ split_of k b stripe }
{
    let full_table = stripe / (b * k);
    let w = stripe % (b * k);
    let copy = w / b;
    let tuple = w % b;
    let parity = k - 1 - copy;
    Split {
        full_table,
        copy,
        tuple,
        parity,
    }
}

// A shelf that has passed rule 10. Its calls ask no more of it and do not try that again. It is lent: a shelf's table is long.
#[derive(Clone, Copy)]
pub struct Checked<'a> {
    pub shelf: &'a Shelf,
    pub ghost passed: { is_shelf shelf.now ≡ true },
}

impl<'a> Checked<'a> {
    // Tries rule 10. Out of line, that took 15% longer on a long table.
    #[inline(always)]
    pub fn of(shelf: &'a Shelf) -> Result<Checked<'a>, Refusal>
        ensures passed { IfOk result (λ checked. checked.shelf.now ≡ shelf.now) }
        ensures refused { IfErr result (λ refusal. (refusal ≡ NotAShelf) × (is_shelf shelf.now ≡ false)) }
    {
        if shelf.is_shelf() {
            Ok(Checked { shelf })
        } else {
            Err(Refusal::NotAShelf)
        }
    }

    // S.
    pub fn stripes(self) -> usize
        ensures { result ≡ stripes (layout_in self.entry.shelf.now) }
    {
        let shelf = self.shelf;
        shelf.T * shelf.b * shelf.k
    }

    // N.
    pub fn addresses(self) -> usize
        ensures { result ≡ addresses (layout_in self.entry.shelf.now) }
    {
        self.stripes() * (self.shelf.k - 1)
    }

    // The units on each disk.
    pub fn offsets(self) -> usize
        ensures { result ≡ offsets (layout_in self.entry.shelf.now) }
    {
        let shelf = self.shelf;
        shelf.T * shelf.r * shelf.k
    }

    // The place of a position of a stripe with this split.
    pub fn place_in(self, at: Split, position: usize) -> Place
        requires { (SplitIn (layout_in self.shelf.now) at) × (position < self.shelf.now.k) }
        ensures { result ≡ place_in (layout_in self.entry.shelf.now) at position }
    {
        let k = self.shelf.k;
        let r = self.shelf.r;
        let table: &[u8] = &self.shelf.table;
        let first = at.tuple * k;
        let disk = table[first + position];
        let before = seek::times(&table[..first], disk);
        let offset = at.full_table * r * k + at.copy * r + before;
        Place {
            disk: usize::from(disk),
            offset,
        }
    }

    // The places of an address and of its stripe's parity.
    pub fn spot(self, address: usize) -> Spot
        requires { address < addresses (layout_in self.shelf.now) }
        ensures { result ≡ spot_of (layout_in self.entry.shelf.now) address }
    {
        let k = self.shelf.k;
        let stripe = address / (k - 1);
        let j = address % (k - 1);
        let at = split_of(k, self.shelf.b, stripe);
        let position = position_of(at.parity, j);
        let data = self.place_in(at, position);
        let parity = self.place_in(at, at.parity);
        Spot {
            disk: data.disk,
            offset: data.offset,
            parity_disk: parity.disk,
            parity_offset: parity.offset,
        }
    }

    // What stands at a place: its tuple is the (offset mod r)-th that holds the disk.
    pub fn stands_at(self, disk: usize, offset: usize) -> LookUp
        requires { (disk < self.shelf.now.v) × (offset < offsets (layout_in self.shelf.now)) }
        ensures { result ≡ stands_at (layout_in self.entry.shelf.now) disk offset }
    {
        let k = self.shelf.k;
        let b = self.shelf.b;
        let r = self.shelf.r;
        let table: &[u8] = &self.shelf.table;
        let entry = seek::nth(&table[..b * k], disk as u8, offset % r);
        let stripe = offset / r * b + entry / k;
        let position = entry % k;
        let parity = split_of(k, b, stripe).parity;
        if position == parity {
            return LookUp::Parity(stripe);
        }
        let j = index_of(parity, position);
        let address = stripe * (k - 1) + j;
        LookUp::Data { stripe, address }
    }

    // The ranks of the entries of its tuples.
    pub fn ranks(self) -> PerEntry
        ensures { result ≡ ranks_of self.entry.shelf.now.table (self.entry.shelf.now.b * self.entry.shelf.now.k) }
    {
        ranks(&self.shelf.table, self.shelf.b * self.shelf.k)
    }

    // The entries of its tuples that are disk d.
    pub fn entries(self, d: u8) -> PerEntry
        ensures { result ≡ entries_of self.entry.shelf.now.table (self.entry.shelf.now.b * self.entry.shelf.now.k) d }
    {
        entries(&self.shelf.table, self.shelf.b * self.shelf.k, d)
    }
}

// For each of the first n entries of the table, how many entries before it have the same disk: as no tuple has a disk
// twice, the number of tuples before its own that hold its disk; zero for the others. One pass for a whole rebuild or print.
pub fn ranks(table: &Table, n: usize) -> PerEntry
    requires n_bound { n ≤ 2048 }
    requires by_index { (i : ℕ) → i < n → get_or table.now i 0 < 64 }
    ensures { result ≡ ranks_of table.now n }
{
    let mut counts = [0u16; Shelf::V_MOST];
    let mut ranks = [0u16; Shelf::PLACES_MOST];
    for (i, disk) in table[..n].iter().enumerate() {
        let disk = usize::from(*disk);
        ranks[i] = counts[disk];
        counts[disk] += 1;
    }
    ranks
}

// The entries of the first n that are disk d, in their order: entry m is the one that has m such before it; then zeros. One
// pass for a whole rebuild.
pub fn entries(table: &Table, n: usize, d: u8) -> PerEntry
    requires { n ≤ 2048 }
    ensures { result ≡ entries_of table.now n d }
{
    let mut entries = [0u16; Shelf::PLACES_MOST];
    let mut found: usize = 0;
    for (i, disk) in table[..n].iter().enumerate() {
        if *disk == d {
            entries[found] = i as u16;
            found += 1;
        }
    }
    entries
}
