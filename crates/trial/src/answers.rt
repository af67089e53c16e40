// What the library's calls answer, in print.
use design::{Refusal, number_given};
use parity::{Cost, Rebuilding};
use placement::{LookUp, Spot};
use std::io;
use std::io::Write;

pub fn refusal<W: Write>(to: &mut W, refusal: Refusal) -> io::Result<()> {
    write!(to, " {}", refusal.number())
}

// 0, or the refusal's number.
pub fn verdict<W: Write>(to: &mut W, answer: Result<(), Refusal>) -> io::Result<()> {
    write!(to, " {}", number_given(&answer))
}

pub fn numbers<W: Write>(to: &mut W, numbers: &[usize]) -> io::Result<()> {
    for x in numbers {
        write!(to, " {x}")?;
    }
    Ok(())
}

pub fn write_back<W: Write>(to: &mut W, answer: Result<usize, Refusal>) -> io::Result<()> {
    match answer {
        Ok(length) => write!(to, " {length}"),
        Err(reason) => {
            write!(to, " refused")?;
            refusal(to, reason)
        }
    }
}

pub fn placing<W: Write>(to: &mut W, answer: Result<Spot, Refusal>) -> io::Result<()> {
    match answer {
        Ok(spot) => write!(
            to,
            " {}:{} parity {}:{}",
            spot.disk, spot.offset, spot.parity_disk, spot.parity_offset
        ),
        Err(reason) => refusal(to, reason),
    }
}

pub fn look_up<W: Write>(to: &mut W, answer: Result<LookUp, Refusal>) -> io::Result<()> {
    match answer {
        Ok(LookUp::Data { stripe, address }) => write!(to, " stripe {stripe} address {address}"),
        Ok(LookUp::Parity(stripe)) => write!(to, " stripe {stripe} parity"),
        Err(reason) => refusal(to, reason),
    }
}

// The number and the units read and written, none where it is refused.
pub fn cost<W: Write>(to: &mut W, answer: Result<Cost, Refusal>) -> io::Result<()> {
    let cost = parity::cost_of(answer);
    numbers(to, &[number_given(&answer), cost.read, cost.written])
}

pub fn scrubbing<W: Write>(to: &mut W, answer: Result<usize, Refusal>) -> io::Result<()> {
    numbers(to, &[number_given(&answer), parity::wrong_of(answer)])
}

pub fn rebuilding<W: Write>(to: &mut W, answer: Result<Rebuilding, Refusal>) -> io::Result<()> {
    numbers(to, &[number_given(&answer)])?;
    numbers(to, &parity::counts_of(&answer))
}
