// How bytes are printed.
use std::fmt;
use std::fmt::{Formatter, Write};

const DIGITS: [&str; 16] = [
    "0", "1", "2", "3", "4", "5", "6", "7", "8", "9", "A", "B", "C", "D", "E", "F",
];

// The digit of the low half of a byte.
fn digit(x: u8) -> &'static str {
    DIGITS[usize::from(x & 15)]
}

// Bytes as pairs of digits, and `-` for none. With `{byte:02X}` a long print takes nearly twice the time.
#[derive(Clone, Copy, Debug, PartialEq, Eq)]
pub struct Bytes<'a>(pub &'a [u8]);

impl fmt::Display for Bytes<'_> {
    fn fmt<W: Write>(&self, f: &mut Formatter<W>) -> fmt::Result {
        if self.0.is_empty() {
            return write!(f, "-");
        }
        for byte in self.0 {
            f.write_str(digit(byte >> 4))?;
            f.write_str(digit(*byte))?;
        }
        Ok(())
    }
}

// Bytes; more than 64 of one value as their count, `x` and the value.
#[derive(Clone, Copy, Debug, PartialEq, Eq)]
pub struct Unit<'a>(pub &'a [u8]);

impl fmt::Display for Unit<'_> {
    fn fmt<W: Write>(&self, f: &mut Formatter<W>) -> fmt::Result {
        let n = self.0.len();
        match self.0 {
            [first, ..] if n > 64 && self.0.iter().all(|byte| byte == first) => {
                write!(f, "{n}x{first:02X}")
            }
            bytes => write!(f, "{}", Bytes(bytes)),
        }
    }
}
