// The commands on placement.
use crate::answers;
use design::Shelf;
use placement::{LookUp, Spot};
use std::io;
use std::io::Write;

// The most addresses that `everywhere` goes through.
const MOST: usize = 100000;

pub fn place<W: Write>(to: &mut W, shelf: Shelf, address: usize) -> io::Result<()> {
    answers::placing(to, placement::place(shelf, address))
}

pub fn find<W: Write>(to: &mut W, shelf: Shelf, disk: usize, offset: usize) -> io::Result<()> {
    answers::look_up(to, placement::look_up(shelf, disk, offset))
}

// Whether the places of an address give that address, and its stripe's parity.
fn comes_back(shelf: Shelf, spot: Spot, placed: usize) -> bool {
    let Ok(LookUp::Data { stripe, address }) = placement::look_up(shelf, spot.disk, spot.offset)
    else {
        return false;
    };
    let Ok(LookUp::Parity(other)) = placement::look_up(shelf, spot.parity_disk, spot.parity_offset)
    else {
        return false;
    };
    address == placed && other == stripe
}

// Goes through the addresses up to the first that is refused, and says how many there are, or the first that does not come back.
pub fn everywhere<W: Write>(to: &mut W, shelf: Shelf) -> io::Result<()> {
    for address in 0..MOST {
        let Ok(spot) = placement::place(shelf, address) else {
            return write!(to, " {address}");
        };
        if !comes_back(shelf, spot, address) {
            return write!(to, " differs at {address}");
        }
    }
    write!(to, " {MOST}")
}
