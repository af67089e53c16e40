// What the words of a line stand for.
ghost use Rattle.std.specs.Prelude.{◌<◌, IfSome};

use crate::fault::Fault;
use crate::held::IMAGE_MOST;
use std::alloc::Global;
use std::str::FromStr;

// The most bytes that a word stands for: those of an image.
pub const BYTES_MOST: usize = IMAGE_MOST;

// The number that a word stands for. A sign, which `parse` takes, is of none.
pub fn number<N: FromStr>(word: &str) -> Result<N, Fault>
where
    N::Err: Drop,
{
    if word.starts_with('+') {
        return Err(Fault::NoCommand);
    }
    word.parse().map_err(|_| Fault::NoCommand)
}

// The same, where the number is not too large.
pub fn number_to(word: &str, most: usize) -> Result<usize, Fault> {
    let x = number(word)?;
    if x > most {
        return Err(Fault::NoCommand);
    }
    Ok(x)
}

fn digit(byte: u8) -> Option<u8>
    ensures { IfSome result (λ x. x < 16) }
{
    match byte {
        b'0'..=b'9' => Some(byte - b'0'),
        b'A'..=b'F' => Some(byte - b'A' + 10),
        _ => None,
    }
}

fn pair(digits: &[u8]) -> Option<u8> {
    let [high, low] = digits else {
        return None;
    };
    Some(16 * digit(*high)? + digit(*low)?)
}

// The bytes that a word stands for.
pub fn bytes(alloc: Global, word: &str) -> Result<Vec<u8>, Fault> {
    let digits = match word {
        "-" => "",
        _ if word.is_empty() || word.len() > 2 * BYTES_MOST => return Err(Fault::NoCommand),
        _ => word,
    };
    let pairs = digits.as_bytes().chunks(2).map(pair);
    pairs
        .collect::<Option<Vec<u8>>>(alloc)?
        .ok_or(Fault::NoCommand)
}
