// Losing a disk and rebuilding it: the calls that change the shelf value.
ghost use Rattle.host.specs.Stored.{HostLost, HostRebuilt};

use crate::{OTHER_BUFFER, numbers, value};
use design::Shelf;

// The bytes of a count for each disk number.
const COUNTS_SIZE: usize = Shelf::V_MOST * numbers::SIZE;

// Declares a disk lost, in the shelf value.
#[unsafe(no_mangle)]
#[tactic(auto, unfolding(crate::specs::Value::shelf_into))]
pub extern "C" fn shqemtuli_lose(shelf: &mut [u8], disk: usize) -> usize
    ensures { HostLost shelf.old disk result shelf.new }
{
    match parity::lose(value::shelf(shelf), disk) {
        Ok(lost) => {
            value::put(shelf, lost);
            0
        }
        Err(refusal) => refusal.number(),
    }
}

// Restores the lost disk; the units read from each of 64 disks go into 256 bytes.
#[unsafe(no_mangle)]
#[tactic(auto, unfolding(crate::specs::Stored::rebuilt_into))]
pub extern "C" fn shqemtuli_rebuild(shelf: &mut [u8], image: &mut [u8], counts: &mut [u8]) -> usize
    ensures { HostRebuilt shelf.old image.old counts.old result shelf.new image.new counts.new }
{
    if counts.len() != COUNTS_SIZE {
        return OTHER_BUFFER;
    }
    let answer = parity::rebuild(value::shelf(shelf), image);
    numbers::put_all(counts, 0, &parity::counts_of(&answer));
    match answer {
        Ok(rebuilding) => {
            value::put(shelf, rebuilding.shelf);
            0
        }
        Err(refusal) => refusal.number(),
    }
}
