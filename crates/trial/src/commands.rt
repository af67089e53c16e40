// The commands, and the words that a line of each has.
use crate::fault::Fault;
use crate::held::IMAGE_MOST;
use crate::runs;
use crate::words::{BYTES_MOST, bytes, number, number_to};
use design::Shelf;
use std::alloc::Global;
use std::str::FromStr;

// The most bytes of a buffer that a shelf is written back into.
const BACK_MOST: usize = 2048;

// One word more than a command has at the most: what a line has behind these makes it no other command.
const WORDS_MOST: usize = 6;

// A number of the shelf value.
#[derive(Clone, Copy, Debug, PartialEq, Eq)]
pub enum Field {
    V,
    K,
    B,
    T,
    U,
    R,
    Lambda,
}

// What changes the shelf value.
#[derive(Clone, Copy, Debug, PartialEq, Eq)]
pub enum Setting {
    Field(Field, usize),
    Entry(usize, u8),
    Lost(u8),
    Whole,
}

// What leaves shelf and image.
#[derive(Debug, Drop)]
pub enum Ask {
    Read {
        at: usize,
        width: usize,
        bytes: Vec<u8>,
    },
    Write {
        at: usize,
        width: usize,
        value: usize,
        bytes: Vec<u8>,
    },
    Back {
        buffer: Vec<u8>,
    },
    Shelf,
    Show,
    Place {
        address: usize,
    },
    Find {
        disk: usize,
        offset: usize,
    },
    Everywhere,
    Run {
        first: usize,
        count: usize,
    },
}

// The calls on the image that leave it.
#[derive(Debug, Drop)]
pub enum Look {
    Read { address: usize, buffer: Vec<u8> },
    Scrub,
    ShowPlace { disk: usize, offset: usize },
    ShowAddress { address: usize, other: Vec<u8> },
}

// The calls that may change it.
#[derive(Debug, Drop)]
pub enum Store {
    Blank,
    Write { address: usize, unit: Vec<u8> },
    WriteStripe { stripe: usize, units: Vec<u8> },
    Rebuild,
}

// What prints its name, and then what came back.
#[derive(Debug, Drop)]
pub enum Call {
    Ask(Ask),
    Lose { disk: usize },
    Look(Look),
    Store(Store),
}

#[derive(Debug, Drop)]
pub enum Command {
    Set(Setting),
    Image { size: usize, byte: u8 },
    Put { at: usize, bytes: Vec<u8> },
    Repeat { times: usize, bytes: Vec<u8> },
    Bytes { at: usize, count: usize },
    Open(Vec<u8>),
    OpenPending,
    Call(Call),
}

impl FromStr for Field {
    type Err = Fault;

    fn from_str(name: &str) -> Result<Field, Fault> {
        match name {
            "v" => Ok(Field::V),
            "k" => Ok(Field::K),
            "b" => Ok(Field::B),
            "T" => Ok(Field::T),
            "u" => Ok(Field::U),
            "r" => Ok(Field::R),
            "lambda" => Ok(Field::Lambda),
            _ => Err(Fault::NoCommand),
        }
    }
}

impl Setting {
    fn parse(words: &[&str]) -> Result<Option<Setting>, Fault> {
        let setting = match *words {
            ["field", name, x] => Setting::Field(name.parse()?, number(x)?),
            ["table", i, disk] => {
                Setting::Entry(number_to(i, Shelf::PLACES_MOST - 1)?, number(disk)?)
            }
            ["lost", disk] => Setting::Lost(number(disk)?),
            ["whole"] => Setting::Whole,
            _ => return Ok(None),
        };
        Ok(Some(setting))
    }
}

// Bytes that all have this value, as many as the word says.
fn filled(alloc: Global, word: &str, byte: u8) -> Result<Vec<u8>, Fault> {
    Ok(vec![in alloc; byte; number_to(word, BYTES_MOST)?]?)
}

impl Ask {
    fn parse(alloc: Global, words: &[&str]) -> Result<Option<Ask>, Fault> {
        let ask = match *words {
            ["read", at, width, word] => Ask::Read {
                at: number(at)?,
                width: number(width)?,
                bytes: bytes(alloc, word)?,
            },
            ["write", at, width, value, word] => Ask::Write {
                at: number(at)?,
                width: number(width)?,
                value: number(value)?,
                bytes: bytes(alloc, word)?,
            },
            ["back", length] => Ask::Back {
                buffer: vec![in alloc; 0xAA; number_to(length, BACK_MOST)?]?,
            },
            ["shelf"] => Ask::Shelf,
            ["show"] => Ask::Show,
            ["place", address] => Ask::Place {
                address: number(address)?,
            },
            ["find", disk, offset] => Ask::Find {
                disk: number(disk)?,
                offset: number(offset)?,
            },
            ["everywhere"] => Ask::Everywhere,
            ["run", first, count] => Ask::Run {
                first: number(first)?,
                count: number_to(count, runs::MOST)?,
            },
            _ => return Ok(None),
        };
        Ok(Some(ask))
    }
}

impl Look {
    fn parse(alloc: Global, words: &[&str]) -> Result<Option<Look>, Fault> {
        let look = match *words {
            ["read", address, length] => Look::Read {
                address: number(address)?,
                buffer: filled(alloc, length, 0xAA)?,
            },
            ["scrub"] => Look::Scrub,
            ["showplace", disk, offset] => Look::ShowPlace {
                disk: number(disk)?,
                offset: number(offset)?,
            },
            ["showaddress", address, length] => Look::ShowAddress {
                address: number(address)?,
                other: filled(alloc, length, 0xBB)?,
            },
            _ => return Ok(None),
        };
        Ok(Some(look))
    }
}

impl Store {
    fn parse(alloc: Global, words: &[&str]) -> Result<Option<Store>, Fault> {
        let store = match *words {
            ["blank"] => Store::Blank,
            ["write", address, word] => Store::Write {
                address: number(address)?,
                unit: bytes(alloc, word)?,
            },
            ["fill", address, length, byte] => Store::Write {
                address: number(address)?,
                unit: filled(alloc, length, number(byte)?)?,
            },
            ["writestripe", stripe, word] => Store::WriteStripe {
                stripe: number(stripe)?,
                units: bytes(alloc, word)?,
            },
            ["fillstripe", stripe, length, byte] => Store::WriteStripe {
                stripe: number(stripe)?,
                units: filled(alloc, length, number(byte)?)?,
            },
            ["rebuild"] => Store::Rebuild,
            _ => return Ok(None),
        };
        Ok(Some(store))
    }
}

impl Call {
    fn parse(alloc: Global, words: &[&str]) -> Result<Option<Call>, Fault> {
        if let ["lose", disk] = *words {
            let disk = number(disk)?;
            return Ok(Some(Call::Lose { disk }));
        }
        if let Some(ask) = Ask::parse(alloc, words)? {
            return Ok(Some(Call::Ask(ask)));
        }
        if let Some(look) = Look::parse(alloc, words)? {
            return Ok(Some(Call::Look(look)));
        }
        Ok(Store::parse(alloc, words)?.map(Call::Store))
    }
}

impl Command {
    // What a line asks. Its words lie in an array: a line, a comment too, may have many, and memory is asked for its bytes alone.
    pub fn read(alloc: Global, line: &[u8]) -> Result<Command, Fault> {
        let text = str::from_utf8(line).map_err(|_| Fault::NoCommand)?;
        let mut words = [""; WORDS_MOST];
        let mut count = 0;
        for word in text.split(' ') {
            if count >= WORDS_MOST {
                break;
            }
            words[count] = word;
            count += 1;
        }
        Command::parse(alloc, words.get(..count).ok_or(Fault::NoCommand)?)
    }

    fn parse(alloc: Global, words: &[&str]) -> Result<Command, Fault> {
        if let Some(setting) = Setting::parse(words)? {
            return Ok(Command::Set(setting));
        }
        if let Some(call) = Call::parse(alloc, words)? {
            return Ok(Command::Call(call));
        }
        match *words {
            ["image", size, byte] => Ok(Command::Image {
                size: number_to(size, IMAGE_MOST)?,
                byte: number(byte)?,
            }),
            ["put", at, word] => Ok(Command::Put {
                at: number(at)?,
                bytes: bytes(alloc, word)?,
            }),
            ["repeat", times, word] => Ok(Command::Repeat {
                times: number(times)?,
                bytes: bytes(alloc, word)?,
            }),
            ["bytes", at, count] => Ok(Command::Bytes {
                at: number(at)?,
                count: number(count)?,
            }),
            ["open", sheet] => Ok(Command::Open(bytes(alloc, sheet)?)),
            ["openpending"] => Ok(Command::OpenPending),
            _ => Err(Fault::NoCommand),
        }
    }
}
