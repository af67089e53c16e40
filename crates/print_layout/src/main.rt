// Prints the layout of the sheet on standard input (document 01, "The layout program"): the sheet is read to its end and the
// library's text is written through a buffer. A write that fails, as to a closed pipe or a full disk, ends the program, and a read
// that fails ends the sheet.
#![tactic(auto)]

ghost use Rattle.std.specs.Prelude.{◌≤◌, length};

use design::Refusal;
use layout::Start;
use std::io;
use std::io::{ErrorKind, Read, Write};

// One byte more than the longest sheet, so that a longer input is refused for its length too.
const SHEET_MOST: usize = 1543;

// The lines that are written at a time, each part with one test of the shelf.
const LINES_MOST: usize = 1024;

const BUFFER_SIZE: usize = LINES_MOST * layout::LINE_ROOM;

// Reads until the buffer is full, the input ends or a read fails, and answers how many bytes are at the start of the buffer. A
// read may give fewer bytes than there is room for, as from a pipe. The library's `read_to_end` would want memory from the heap,
// and this program has none.
fn read_full<R: Read>(input: &mut R, buffer: &mut [u8]) -> usize
    ensures { result ≤ length buffer.new }
{
    let mut done = 0;
    while done < buffer.len() {
        match input.read(&mut buffer[done..]) {
            Ok(0) | Err(_) => return done,
            Ok(n) => done += n,
        }
    }
    done
}

// Writes the text at the start of the buffer. There is always one, and within the buffer: the library wrote it there.
fn put<W: Write>(output: &mut W, text: Result<usize, Refusal>, buffer: &[u8]) -> io::Result<()> {
    let length = text.map_err(|_| ErrorKind::InvalidData)?;
    let text = buffer.get(..length).ok_or(ErrorKind::InvalidData)?;
    output.write_all(text)
}

// The lines of an opened sheet, part by part, or that of a refused one.
fn print<W: Write>(
    output: &mut W,
    opened: Result<Start, usize>,
    buffer: &mut [u8],
) -> io::Result<()> {
    let start = match opened {
        Ok(start) => start,
        Err(number) => {
            let line = layout::refused_line(number, buffer);
            return put(output, line, buffer);
        }
    };
    let first = layout::first_line(start.shelf, buffer);
    put(output, first, buffer)?;
    for next in (0..start.stripes).step_by(LINES_MOST) {
        let n = LINES_MOST.min(start.stripes - next);
        let lines = layout::lines(start.shelf, next, n, buffer);
        put(output, lines, buffer)?;
    }
    Ok(())
}

fn main(rt: HostRuntime) {
    let mut sheet = [0u8; SHEET_MOST];
    let length = read_full(&mut rt.stdin(), &mut sheet);
    let opened = layout::open(&sheet[..length]);
    let mut buffer = [0u8; BUFFER_SIZE];
    // A write that failed has nowhere to be told.
    let _ = print(&mut rt.stdout(), opened, &mut buffer);
}
