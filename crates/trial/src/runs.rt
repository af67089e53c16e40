// The command on runs of places.
ghost use Rattle.std.specs.Prelude.{◌≡◌, ◌≤◌, take, drop};
ghost use Rattle.placement.specs.Placed.{Ran};

use crate::answers;
use design::{Refusal, Shelf};
use placement::Spot;
use std::io;
use std::io::Write;

// The most records that a run has here.
pub const MOST: usize = 32;

// Lends a run the first n records of an array.
fn lend(shelf: Shelf, first: usize, list: &mut [Spot; MOST], n: usize) -> Result<(), Refusal>
    requires { n ≤ 32 }
    ensures run { Ran shelf first (take n list.old) result (take n list.new) }
    ensures rest { drop n list.new ≡ drop n list.old }
{
    placement::run(shelf, first, &mut list[..n])
}

pub fn run<W: Write>(to: &mut W, shelf: Shelf, first: usize, count: usize) -> io::Result<()> {
    let n = count.min(MOST);
    let before = Spot {
        disk: 7,
        offset: 7,
        parity_disk: 7,
        parity_offset: 7,
    };
    let mut list = [before; MOST];
    answers::verdict(to, lend(shelf, first, &mut list, n))?;
    for spot in &list[..n] {
        write!(
            to,
            " | {}:{} {}:{}",
            spot.disk, spot.offset, spot.parity_disk, spot.parity_offset
        )?;
    }
    Ok(())
}
