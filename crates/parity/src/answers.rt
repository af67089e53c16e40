// What an answer hands back, also of a refused call: the shelf that it got, and counts of zero (document 01, "Numbers a caller
// can get").
ghost use Rattle.std.specs.Prelude.{◌≡◌};
ghost use Rattle.parity.specs.Calls.{cost_of, losing_of, rebuilt_shelf, counts_of, wrong_of};

use crate::{Cost, Rebuilding};
use design::{Refusal, Shelf};

// The units that a unit write, a stripe write or a read read and wrote.
pub fn cost_of(answer: Result<Cost, Refusal>) -> Cost
    ensures { result ≡ cost_of answer }
{
    answer.unwrap_or_default()
}

// The shelf after declaring a disk lost; `shelf` is the one that the call got.
pub fn losing_of(shelf: Shelf, answer: Result<Shelf, Refusal>) -> Shelf
    ensures { result ≡ losing_of shelf answer }
{
    answer.unwrap_or(shelf)
}

// The shelf after a rebuild; `shelf` is the one that the call got.
pub fn rebuilt_shelf(shelf: Shelf, answer: &Result<Rebuilding, Refusal>) -> Shelf
    ensures { result ≡ rebuilt_shelf shelf answer.now }
{
    match answer {
        Ok(rebuilding) => rebuilding.shelf,
        Err(_) => shelf,
    }
}

// The units that a rebuild read from each disk.
pub fn counts_of(answer: &Result<Rebuilding, Refusal>) -> [usize; Shelf::V_MOST]
    ensures { result ≡ counts_of answer.now }
{
    match answer {
        Ok(rebuilding) => rebuilding.counts,
        Err(_) => [0; Shelf::V_MOST],
    }
}

// The wrong stripes that a scrub counted.
pub fn wrong_of(answer: Result<usize, Refusal>) -> usize
    ensures { result ≡ wrong_of answer }
{
    answer.unwrap_or(0)
}
