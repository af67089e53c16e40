// One line: what it asks is done, and printed.
use crate::commands::{Ask, Call, Command};
use crate::fault::Fault;
use crate::held::{Held, Image};
use crate::print::Unit;
use crate::{bits, images, places, runs, sheets, values};
use design::Shelf;
use std::alloc::Global;
use std::io;
use std::io::Write;

// A line that is no command: an empty one, or a comment, as it is.
fn echo<W: Write>(to: &mut W, line: &[u8]) -> io::Result<()> {
    if !line.is_empty() && !line.starts_with(b"#") {
        write!(to, "? ")?;
    }
    to.write_all(line)?;
    writeln!(to)
}

// The commands that leave shelf and image.
fn ask<W: Write>(to: &mut W, shelf: &Shelf, ask: Ask) -> io::Result<()> {
    match ask {
        Ask::Read { at, width, bytes } => bits::read(to, bytes.as_slice(), at, width),
        Ask::Write {
            at,
            width,
            value,
            mut bytes,
        } => bits::write(to, bytes.as_mut_slice(), at, width, value),
        Ask::Back { mut buffer } => sheets::back(to, *shelf, buffer.as_mut_slice()),
        Ask::Shelf => values::judge(to, *shelf),
        Ask::Show => values::show(to, shelf),
        Ask::Place { address } => places::place(to, *shelf, address),
        Ask::Find { disk, offset } => places::find(to, *shelf, disk, offset),
        Ask::Everywhere => places::everywhere(to, *shelf),
        Ask::Run { first, count } => runs::run(to, *shelf, first, count),
    }
}

// The commands that print their name, and then what came back.
fn called<W: Write>(to: &mut W, held: &mut Held, call: Call) -> io::Result<()> {
    match call {
        Call::Ask(it) => ask(to, &held.shelf, it),
        Call::Lose { disk } => images::lose(to, &mut held.shelf, disk),
        Call::Look(it) => images::look(to, held.shelf, held.image.as_slice(), it),
        Call::Store(it) => {
            let before = held.image;
            images::store(to, &mut held.shelf, held.image.as_mut_slice(), it)?;
            let word = if held.image == before {
                "kept"
            } else {
                "changed"
            };
            write!(to, " {word}")
        }
    }
}

// The name is the line's first word.
fn named<W: Write>(to: &mut W, held: &mut Held, line: &[u8], call: Call) -> io::Result<()> {
    let name = line.split(|byte| *byte == b' ').next().unwrap_or(line);
    to.write_all(name)?;
    called(to, held, call)?;
    writeln!(to)
}

// Does what a line asks.
fn done<W: Write>(to: &mut W, alloc: Global, held: &mut Held, line: &[u8]) -> Result<(), Fault> {
    match Command::read(alloc, line)? {
        Command::Set(setting) => values::set(&mut held.shelf, setting),
        Command::Image { size, byte } => held.image = Image::new(size, byte),
        Command::Put { at, bytes } => held.image.put(at, bytes.as_slice())?,
        Command::Repeat { times, bytes } => held.repeat(times, bytes.as_slice())?,
        Command::Bytes { at, count } => {
            writeln!(to, "bytes {}", Unit(held.image.part(at, count)?))?;
        }
        Command::Open(sheet) => held.shelf = sheets::open(to, sheet.as_slice())?,
        Command::OpenPending => {
            held.shelf = sheets::open(to, held.pending.as_slice())?;
            held.pending.clear();
        }
        Command::Call(call) => named(to, held, line, call)?,
    }
    Ok(())
}

pub fn step<W: Write>(to: &mut W, alloc: Global, held: &mut Held, line: &[u8]) -> io::Result<()> {
    match done(to, alloc, held, line) {
        Ok(()) => Ok(()),
        Err(Fault::NoCommand) => echo(to, line),
        Err(Fault::Io(error)) => Err(error),
    }
}
