// Counters in bit planes: a row of words for each disk d, whose bit e is that disk's lane for disk e. A lane's number stands across the
// words of its row, its lowest bit in the first, so that one word operation counts in all 64 lanes.
ghost use Rattle.std.specs.Prelude.{◌≡◌, ℕ, ◌+◌, ◌^◌, ◌<◌, eqb};
ghost use Rattle.design.specs.Count.{every};
ghost use Rattle.design.specs.inner.Planes.{bit, counted, AddedRow};

use crate::Shelf;

// The words of a row: no design has more than 1,024 tuples, and every count is below 2^11.
pub const DEPTH: usize = 11;

// Every number that a lane holds is below this.
pub const COUNTS: usize = 1 << DEPTH;

pub type Row = [u64; DEPTH];

pub type Planes = [Row; Shelf::V_MOST];

// Adds one in each lane that the mask has: what a word carries goes into the next, while there is any.
pub fn add(row: &mut Row, mask: u64)
    requires { (e : ℕ) → e < 64 → counted row.old e + bit mask e < 2 ^ 11 }
    ensures { AddedRow mask row.old row.new }
{
    let mut carry = mask;
    for word in row.iter_mut() {
        let was = *word;
        *word = was ^ carry;
        carry &= was;
        if carry == 0 {
            break;
        }
    }
}

// The number in lane e.
pub fn count_of(row: &Row, e: usize) -> usize
    requires { e < 64 }
    ensures { result ≡ counted row.now e }
{
    let mut n = 0;
    for (i, word) in row.iter().enumerate() {
        n += (*word >> e & 1) << i;
    }
    n as usize
}

// Whether the lanes below d all hold `value`: word by word, its bit stands in each of them.
pub fn all_below(row: &Row, d: usize, value: usize) -> bool
    requires { (d < 64) × (value < 2 ^ 11) }
    ensures { result ≡ every d (λ e. eqb (counted row.now e) value) }
{
    let below = (1u64 << d) - 1;
    row.iter().enumerate().all(|(i, word)| *word & below == (value as u64 >> i & 1) * below)
}
