// Parity: the stored bytes of a shelf (document 01, "The shelf value and the calls").
#![tactic(auto)]

ghost use Rattle.std.specs.Prelude.{◌≡◌};
ghost use Rattle.parity.specs.Calls.{Blanked, ReadOut, Wrote, WroteStripe, lost, Rebuilt, scrubbed, place_shown, address_shown};

use design::{Loss, Refusal, Shelf};

mod answers;
mod blocks;
mod bytes;
mod checking;
mod large;
mod presence;
mod restoring;
mod rules;
mod showing;
mod sizes;
mod storing;
mod stripe;
mod units;
mod whole;

pub use answers::{cost_of, counts_of, losing_of, rebuilt_shelf, wrong_of};

// The units that a unit write, a stripe write or a read reads and writes. A refused call has none, as `Cost::default()`.
#[derive(Clone, Copy, Debug, Default, PartialEq, Eq)]
pub struct Cost {
    pub read: usize,
    pub written: usize,
}

// What a rebuild gives: the shelf with no disk lost, and the units read from each disk.
#[derive(Clone, Copy)]
pub struct Rebuilding {
    pub shelf: Shelf,
    pub counts: [usize; Shelf::V_MOST],
}

// Every image byte becomes zero.
pub fn blank(shelf: Shelf, image: &mut [u8]) -> Result<(), Refusal>
    ensures { Blanked shelf image.old result image.new }
{
    rules::of_whole(&shelf, image.len())?;
    image.fill(0);
    Ok(())
}

// Fills the buffer with the unit of an address.
pub fn read(shelf: Shelf, image: &[u8], address: usize, buffer: &mut [u8]) -> Result<Cost, Refusal>
    ensures { ReadOut shelf image.now address buffer.old result buffer.new }
{
    let checked = rules::of_unit(&shelf, image.len(), address, buffer.len())?;
    let read = storing::fetch(checked, image, address, buffer);
    Ok(Cost { read, written: 0 })
}

// Writes a unit to an address.
pub fn write(shelf: Shelf, image: &mut [u8], address: usize, unit: &[u8]) -> Result<Cost, Refusal>
    ensures { Wrote shelf image.old address unit.now result image.new }
{
    let checked = rules::of_unit(&shelf, image.len(), address, unit.len())?;
    Ok(storing::store(checked, image, address, unit))
}

// Writes the k - 1 data units of a stripe, and its parity.
pub fn write_stripe(
    shelf: Shelf,
    image: &mut [u8],
    stripe: usize,
    buffer: &[u8],
) -> Result<Cost, Refusal>
    ensures { WroteStripe shelf image.old stripe buffer.now result image.new }
{
    let checked = rules::of_stripe(&shelf, image.len(), stripe, buffer.len())?;
    let written = large::store_stripe(checked, image, stripe, buffer);
    Ok(Cost { read: 0, written })
}

// Declares a disk lost.
pub fn lose(shelf: Shelf, disk: usize) -> Result<Shelf, Refusal>
    ensures { result ≡ lost shelf disk }
{
    rules::of_lose(&shelf, disk)?;
    Ok(Shelf {
        loss: Loss::of(disk as u8),
        ..shelf
    })
}

// Restores every unit of the lost disk.
pub fn rebuild(shelf: Shelf, image: &mut [u8]) -> Result<Rebuilding, Refusal>
    ensures { Rebuilt shelf image.old result image.new }
{
    let checked = rules::of_rebuild(&shelf, image.len())?;
    restoring::restore_range(checked, image, 0, checked.offsets());
    let counts = restoring::counts(checked);
    let shelf = Shelf {
        loss: Loss::none(),
        ..shelf
    };
    Ok(Rebuilding { shelf, counts })
}

// Counts the wrong stripes.
pub fn scrub(shelf: Shelf, image: &[u8]) -> Result<usize, Refusal>
    ensures { result ≡ scrubbed shelf image.now }
{
    let checked = rules::of_whole(&shelf, image.len())?;
    Ok(checking::count_wrong(checked, image))
}

// Hands out the unit at a place: that part of the image, or the empty part where it is refused.
pub fn show_place(shelf: Shelf, image: &[u8], disk: usize, offset: usize) -> &[u8]
    ensures { result.now ≡ place_shown shelf image.now disk offset }
{
    let Ok(checked) = rules::of_place(&shelf, image.len(), disk, offset) else {
        return &image[..0];
    };
    showing::part(checked, image, disk, offset)
}

// Hands out the unit of an address: from the image where its disk is present, otherwise the second buffer.
pub fn show_address<'a>(shelf: Shelf, image: &'a [u8], address: usize, other: &'a [u8]) -> &'a [u8]
    ensures { result.now ≡ address_shown shelf image.now address other.now }
{
    let Ok(checked) = rules::of_unit(&shelf, image.len(), address, other.len()) else {
        return &image[..0];
    };
    showing::shown(checked, image, address, other)
}
