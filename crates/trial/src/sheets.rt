// The commands on sheets.
use crate::print::Bytes;
use crate::{answers, values};
use design::{Shelf, number_given};
use std::io;
use std::io::Write;

// Opens the sheet and prints what came back.
pub fn open<W: Write>(to: &mut W, sheet: &[u8]) -> io::Result<Shelf> {
    let opened = Shelf::open(sheet);
    write!(to, "open")?;
    answers::numbers(to, &[number_given(&opened)])?;
    if let Ok(shelf) = opened {
        values::numbers(to, &shelf)?;
    }
    writeln!(to)?;
    Ok(Shelf::or_empty(opened))
}

// Writes the shelf back and prints what came back.
pub fn back<W: Write>(to: &mut W, shelf: Shelf, buffer: &mut [u8]) -> io::Result<()> {
    answers::write_back(to, shelf.write_back(buffer))?;
    write!(to, " {}", Bytes(buffer))
}
