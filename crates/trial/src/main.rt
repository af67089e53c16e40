// Runs cases through the library: each line of standard input is a command, and what the library answers is printed. The cases
// are the crate's file stdin, and stdout has the answers by document 01. In a heading there, a name such as B-4 is an entry of
// the list of readings that docs/DECISIONS.md cites.
//
// A line's words are set apart by single spaces. A number is decimal, below 2^64. BYTES are pairs of hexadecimal digits in
// upper case, at most 16,384 pairs, or `-` for none.
//
// # TEXT, or an empty line      printed as it is
//
// Bit fields (module bits):
// read AT WIDTH BYTES           prints `read VALUE`, or `read none`
// write AT WIDTH VALUE BYTES    prints `write done` or `write none`, and the bytes after it
//
// The sheet (module sheets):
// open BYTES                    opens the sheet: prints `open`, 0 or the refusal's number, and after a 0 v k b T u r lambda.
//                               The shelf that it gives is the current one from then on, also the empty one of a refusal
// repeat TIMES BYTES            adds the bytes to the pending ones, so many times; prints nothing
// openpending                   opens the pending bytes as a sheet, as `open` does, and clears them
// back N                        writes the current shelf back into N bytes (at most 2,048) that are AA before: prints
//                               `back LENGTH` or `back refused NUMBER`, and the N bytes after it
//
// The shelf value (module values). The first four change the current shelf and print nothing:
// field NAME VALUE              sets a number of it; NAME is v, k, b, T, u, r or lambda
// table I ENTRY                 sets an entry of its table
// lost DISK                     has the disk lost, and no other
// whole                         has no disk lost
// shelf                         prints `shelf 0` where the current shelf passes for one, else `shelf 10`
// show                          prints the numbers of the current shelf, its loss, and after a colon the b·k entries in use
//
// Placement on the current shelf (module places). A place is printed as DISK:OFFSET:
// place ADDRESS                 prints `place`, its place, `parity` and the parity's place, or `place` and the refusal's number
// find DISK OFFSET              looks the place up: prints `find stripe S address A` or `find stripe S parity`, or `find` and the
//                               refusal's number
// everywhere                    places each address from 0 up to the first refused one, at most 100,000, and looks its place and
//                               the parity's up: prints `everywhere COUNT` where each gives the address and its stripe's parity,
//                               else `everywhere differs at A` with the first that does not
//
// Runs of places on the current shelf (module runs):
// run FIRST COUNT               runs over a list of COUNT records (at most 32), each 7:7 with the parity 7:7 before it: prints
//                               `run`, 0 or the refusal's number, and the records after it, each as a bar, its place and the
//                               parity's
//
// The current image (module images). The first two change it and print nothing:
// image SIZE BYTE               becomes SIZE bytes (at most 16,384), all BYTE
// put AT BYTES                  has these bytes from AT on
// bytes AT N                    prints N bytes of it from AT on. More than 64 equal ones are printed as COUNTxBYTE, here and below
//
// The calls on the current shelf and image (module images). Each prints its name and 0 or the refusal's number:
// read ADDRESS N                into N bytes (at most 16,384) that are AA before: then the units read and written, and the buffer
// scrub                         then the wrong stripes
// showplace DISK OFFSET         prints the part alone, `-` for the empty one
// showaddress ADDRESS N         the same, with a second buffer of N bytes that are BB
// blank                         then `kept` or `changed`, as the image is or is not what it was
// write ADDRESS BYTES           then the units read and written, and `kept` or `changed`
// writestripe STRIPE BYTES      likewise
// fill ADDRESS N BYTE           a unit write of N bytes (at most 16,384), all BYTE
// fillstripe STRIPE N BYTE      a stripe write of N such bytes
// lose DISK                     the shelf handed back is the current one
// rebuild                       then the 64 counts, and `kept` or `changed`; the shelf handed back is the current one
//
// Any other line is printed after `? `, and so is one whose number is too large for its command.
//
// A new command has a variant and an arm in the module commands, and an arm in the module steps, values or images.
#![tactic(auto)]

mod answers;
mod bits;
mod commands;
mod fault;
mod held;
mod images;
mod places;
mod print;
mod runs;
mod sheets;
mod steps;
mod values;
mod words;

use held::Held;
use std::alloc::Global;
use std::io;
use std::io::{BufWriter, Read, Write};

// The most bytes of standard input that are read.
const INPUT_MOST: u64 = 131072;

fn run<W: Write>(to: &mut W, alloc: Global, text: &[u8]) -> io::Result<()> {
    let mut held = Held::new(alloc);
    for line in text.split_inclusive(|byte| *byte == b'\n') {
        steps::step(
            to,
            alloc,
            &mut held,
            line.strip_suffix(b"\n").unwrap_or(line),
        )?;
    }
    Ok(())
}

fn main(rt: HostRuntime) -> io::Result<()> {
    let mut input = Vec::new(rt.alloc());
    rt.reader().take(INPUT_MOST).read_to_end(&mut input)?;
    let mut to = BufWriter::new(rt.alloc(), io::writer(&rt))?;
    run(&mut to, rt.alloc(), input.as_slice())?;
    to.flush()
}
