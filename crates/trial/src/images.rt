// The calls on the current shelf and the current image.
use crate::answers;
use crate::commands::{Look, Store};
use crate::print::Unit;
use design::{Shelf, number_given};
use std::io;
use std::io::Write;

// The calls that leave the image.
pub fn look<W: Write>(to: &mut W, shelf: Shelf, image: &[u8], look: Look) -> io::Result<()> {
    match look {
        Look::Read {
            address,
            mut buffer,
        } => {
            let cost = parity::read(shelf, image, address, buffer.as_mut_slice());
            answers::cost(to, cost)?;
            write!(to, " {}", Unit(buffer.as_slice()))
        }
        Look::Scrub => answers::scrubbing(to, parity::scrub(shelf, image)),
        Look::ShowPlace { disk, offset } => {
            write!(
                to,
                " {}",
                Unit(parity::show_place(shelf, image, disk, offset))
            )
        }
        Look::ShowAddress { address, other } => {
            let shown = parity::show_address(shelf, image, address, other.as_slice());
            write!(to, " {}", Unit(shown))
        }
    }
}

fn rebuild<W: Write>(to: &mut W, shelf: &mut Shelf, image: &mut [u8]) -> io::Result<()> {
    let answer = parity::rebuild(*shelf, image);
    *shelf = parity::rebuilt_shelf(*shelf, &answer);
    answers::rebuilding(to, answer)
}

// The calls that may change the image, or the loss.
pub fn store<W: Write>(
    to: &mut W,
    shelf: &mut Shelf,
    image: &mut [u8],
    store: Store,
) -> io::Result<()> {
    match store {
        Store::Blank => answers::verdict(to, parity::blank(*shelf, image)),
        Store::Write { address, unit } => {
            answers::cost(to, parity::write(*shelf, image, address, unit.as_slice()))
        }
        Store::WriteStripe { stripe, units } => answers::cost(
            to,
            parity::write_stripe(*shelf, image, stripe, units.as_slice()),
        ),
        Store::Rebuild => rebuild(to, shelf, image),
    }
}

pub fn lose<W: Write>(to: &mut W, shelf: &mut Shelf, disk: usize) -> io::Result<()> {
    let answer = parity::lose(*shelf, disk);
    *shelf = parity::losing_of(*shelf, answer);
    answers::numbers(to, &[number_given(&answer)])
}
