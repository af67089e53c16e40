// The commands on bit fields.
use crate::print::Bytes;
use std::io;
use std::io::Write;

pub fn read<W: Write>(to: &mut W, bytes: &[u8], at: usize, width: usize) -> io::Result<()> {
    match fields::read(bytes, at, width) {
        Some(x) => write!(to, " {x}"),
        None => write!(to, " none"),
    }
}

pub fn write<W: Write>(
    to: &mut W,
    bytes: &mut [u8],
    at: usize,
    width: usize,
    value: usize,
) -> io::Result<()> {
    let done = match fields::write(bytes, at, width, value) {
        Ok(()) => "done",
        Err(_) => "none",
    };
    write!(to, " {done} {}", Bytes(bytes))
}
