// The commands on the shelf value.
use crate::answers;
use crate::commands::{Field, Setting};
use design::{Loss, Refusal, Shelf};
use std::io;
use std::io::Write;

// v k b T u r lambda.
pub fn numbers<W: Write>(to: &mut W, shelf: &Shelf) -> io::Result<()> {
    answers::numbers(
        to,
        &[
            shelf.v,
            shelf.k,
            shelf.b,
            shelf.T,
            shelf.u,
            shelf.r,
            shelf.lambda,
        ],
    )
}

// The b·k entries in use, as far as the table goes.
fn entries<W: Write>(to: &mut W, shelf: &Shelf) -> io::Result<()> {
    for disk in shelf.table.iter().take(shelf.b.saturating_mul(shelf.k)) {
        write!(to, " {disk}")?;
    }
    Ok(())
}

pub fn show<W: Write>(to: &mut W, shelf: &Shelf) -> io::Result<()> {
    numbers(to, shelf)?;
    match shelf.loss.lost {
        None => write!(to, " whole :")?,
        Some(disk) => write!(to, " lost {disk} :")?,
    }
    entries(to, shelf)
}

pub fn judge<W: Write>(to: &mut W, shelf: Shelf) -> io::Result<()> {
    if shelf.is_shelf() {
        write!(to, " 0")
    } else {
        answers::refusal(to, Refusal::NotAShelf)
    }
}

fn set_field(shelf: &mut Shelf, field: Field, x: usize) {
    match field {
        Field::V => shelf.v = x,
        Field::K => shelf.k = x,
        Field::B => shelf.b = x,
        Field::T => shelf.T = x,
        Field::U => shelf.u = x,
        Field::R => shelf.r = x,
        Field::Lambda => shelf.lambda = x,
    }
}

fn set_entry(shelf: &mut Shelf, i: usize, disk: u8) {
    if let Some(entry) = shelf.table.get_mut(i) {
        *entry = disk;
    }
}

pub fn set(shelf: &mut Shelf, setting: Setting) {
    match setting {
        Setting::Field(field, x) => set_field(shelf, field, x),
        Setting::Entry(i, disk) => set_entry(shelf, i, disk),
        Setting::Lost(disk) => shelf.loss = Loss::of(disk),
        Setting::Whole => shelf.loss = Loss::none(),
    }
}
