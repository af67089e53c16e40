// What is kept from line to line.
use crate::fault::Fault;
use design::Shelf;
use std::alloc::Global;

// The most bytes of an image: four units of 4,096.
pub const IMAGE_MOST: usize = 16384;

// The most pending bytes.
const PENDING_MOST: usize = 2048;

// The current image: the first `size` of the bytes. No `Vec` of that length, since `put` and `bytes` reach those behind it too.
#[derive(Clone, Copy, PartialEq, Eq)]
pub struct Image {
    bytes: [u8; IMAGE_MOST],
    // No ghost field bounds it: with one, the prover covers no `as_mut_slice`.
    size: usize,
}

impl Image {
    pub fn new(size: usize, byte: u8) -> Image {
        Image {
            bytes: [byte; IMAGE_MOST],
            size,
        }
    }

    pub fn as_slice(&self) -> &[u8] {
        &self.bytes[..self.size.min(IMAGE_MOST)]
    }

    pub fn as_mut_slice(&mut self) -> &mut [u8] {
        let size = self.size.min(IMAGE_MOST);
        &mut self.bytes[..size]
    }

    // These bytes, where there are so many.
    pub fn part(&self, at: usize, count: usize) -> Result<&[u8], Fault> {
        let rest = self.bytes.get(at..).ok_or(Fault::NoCommand)?;
        rest.get(..count).ok_or(Fault::NoCommand)
    }

    // Puts the bytes from `at` on, where there is room.
    pub fn put(&mut self, at: usize, bytes: &[u8]) -> Result<(), Fault> {
        let rest = self.bytes.get_mut(at..).ok_or(Fault::NoCommand)?;
        let place = rest.get_mut(..bytes.len()).ok_or(Fault::NoCommand)?;
        place.copy_from_slice(bytes);
        Ok(())
    }
}

#[derive(Drop)]
pub struct Held {
    // The current shelf.
    pub shelf: Shelf,
    // The bytes that `repeat` has put together.
    pub pending: Vec<u8>,
    pub image: Image,
}

impl Held {
    pub fn new(alloc: Global) -> Held {
        Held {
            shelf: Shelf::empty(),
            pending: Vec::new(alloc),
            image: Image::new(0, 0),
        }
    }

    // Adds the bytes to the pending ones, so many times.
    pub fn repeat(&mut self, times: usize, bytes: &[u8]) -> Result<(), Fault> {
        let room = PENDING_MOST.saturating_sub(self.pending.len());
        let count = bytes.len().saturating_mul(times);
        if count > room {
            return Err(Fault::NoCommand);
        }
        self.pending
            .extend(bytes.iter().copied().cycle().take(count))?;
        Ok(())
    }
}
