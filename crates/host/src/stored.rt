// The stored bytes: blank, writes, read and scrub.
ghost use Rattle.std.specs.Prelude.{Result, ◌≡◌};
ghost use Rattle.std.specs.Fn.{FnOnceReturnsAtMut};
ghost use Rattle.parity.specs.declared.Cost.{Cost};
ghost use Rattle.host.specs.Answers.{Told, Into};
ghost use Rattle.host.specs.Stored.{HostBlanked, CostGiven, HostWrote, HostWroteStripe, HostReadOut, HostScrubbed};
ghost use Rattle.design.specs.declared.Refusal.{Refusal};

use crate::{OTHER_BUFFER, numbers, value};
use design::Refusal;
use parity::Cost;

// Every image byte becomes zero.
#[unsafe(no_mangle)]
pub extern "C" fn shqemtuli_blank(shelf: &[u8], image: &mut [u8]) -> usize
    ensures { HostBlanked shelf.now image.old result image.new }
{
    design::number_given(&parity::blank(value::shelf(shelf), image))
}

// The bytes of two counts.
const COST_SIZE: usize = 2 * numbers::SIZE;

// Gives the number of a call that may change lent bytes, and puts its counts of units.
fn counted<F: FnOnce(&mut [u8]) -> Result<Cost, Refusal>>(
    cost: &mut [u8],
    bytes: &mut [u8],
    call: F,
) -> usize
    requires { F.IsAlwaysCallable call }
    ensures { Into 2 cost.old result ((bytes.new ≡ bytes.old) × (cost.new ≡ cost.old))
        (Told (λ (answer : Result Cost Refusal). FnOnceReturnsAtMut F.FnOnce call bytes.old answer bytes.new)
        (CostGiven cost.old result cost.new)) }
{
    if cost.len() != COST_SIZE {
        return OTHER_BUFFER;
    }
    let answer = call(bytes);
    let Cost { read, written } = parity::cost_of(answer);
    numbers::put_all(cost, 0, &[read, written]);
    design::number_given(&answer)
}

// Writes a unit to an address. The units read and written go into the 8 bytes of `cost`.
#[unsafe(no_mangle)]
pub extern "C" fn shqemtuli_write(
    shelf: &[u8],
    image: &mut [u8],
    address: usize,
    unit: &[u8],
    cost: &mut [u8],
) -> usize
    ensures { HostWrote shelf.now image.old address unit.now cost.old result image.new cost.new }
{
    counted(
        cost,
        image,
        |image| parity::write(value::shelf(shelf), image, address, unit),
    )
}

// Writes the k - 1 data units of a stripe, and its parity.
#[unsafe(no_mangle)]
pub extern "C" fn shqemtuli_write_stripe(
    shelf: &[u8],
    image: &mut [u8],
    stripe: usize,
    buffer: &[u8],
    cost: &mut [u8],
) -> usize
    ensures { HostWroteStripe shelf.now image.old stripe buffer.now cost.old result image.new cost.new }
{
    counted(
        cost,
        image,
        |image| parity::write_stripe(value::shelf(shelf), image, stripe, buffer),
    )
}

// Fills the buffer with the unit of an address.
#[unsafe(no_mangle)]
pub extern "C" fn shqemtuli_read(
    shelf: &[u8],
    image: &[u8],
    address: usize,
    buffer: &mut [u8],
    cost: &mut [u8],
) -> usize
    ensures { HostReadOut shelf.now image.now address buffer.old cost.old result buffer.new cost.new }
{
    counted(
        cost,
        buffer,
        |buffer| parity::read(value::shelf(shelf), image, address, buffer),
    )
}

// The number of wrong stripes, in 4 bytes.
#[unsafe(no_mangle)]
pub extern "C" fn shqemtuli_scrub(shelf: &[u8], image: &[u8], out: &mut [u8]) -> usize
    ensures { HostScrubbed shelf.now image.now out.old result out.new }
{
    if out.len() != numbers::SIZE {
        return OTHER_BUFFER;
    }
    let wrong = parity::scrub(value::shelf(shelf), image);
    numbers::put_all(out, 0, &[parity::wrong_of(wrong)]);
    design::number_given(&wrong)
}
