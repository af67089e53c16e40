// Placing an address, looking a place up, and runs of places.
ghost use Rattle.host.specs.Places.{spot_numbers, HostPlaced, HostLookedUp, HostRan, spots_into};
ghost use Rattle.std.specs.Prelude.{◌≡◌, ◌+◌, ◌*◌, ◌/◌, ◌%◌, ◌≤◌, length};
ghost use Rattle.placement.specs.Layout.{layout_in, addresses};
ghost use Rattle.host.specs.Numbers.{numbered};

use crate::{OTHER_BUFFER, numbers, value};
use placement::{Checked, LookUp, Spot};

// The bytes of a record: disk, offset, and those of its parity.
const SPOT_SIZE: usize = 4 * numbers::SIZE;

// The bytes of what stands at a place: stripe, address, and whether it is parity.
const FOUND_SIZE: usize = 3 * numbers::SIZE;

// Puts record i.
#[tactic(auto, unfolding(crate::specs::Places::spot_numbers))]
fn put_spot(out: &mut [u8], i: usize, spot: Spot)
    requires { 16 * i + 16 ≤ length out.old }
    ensures { out.new ≡ numbered out.old (4 * i) (spot_numbers spot) }
{
    let list = [spot.disk, spot.offset, spot.parity_disk, spot.parity_offset];
    numbers::put_all(out, 4 * i, &list);
}

// The place of an address, in 16 bytes.
#[unsafe(no_mangle)]
#[tactic(auto, unfolding(crate::specs::Places::placing_into))]
pub extern "C" fn shqemtuli_place(shelf: &[u8], address: usize, out: &mut [u8]) -> usize
    ensures { HostPlaced shelf.now address out.old result out.new }
{
    if out.len() != SPOT_SIZE {
        return OTHER_BUFFER;
    }
    match placement::place(value::shelf(shelf), address) {
        Ok(spot) => {
            put_spot(out, 0, spot);
            0
        }
        Err(refusal) => refusal.number(),
    }
}

// What stands at a place: stripe, address or 0, and 1 for parity or 0, in 12 bytes.
#[unsafe(no_mangle)]
#[tactic(auto, unfolding(crate::specs::Places::look_up_into))]
pub extern "C" fn shqemtuli_look_up(
    shelf: &[u8],
    disk: usize,
    offset: usize,
    out: &mut [u8],
) -> usize
    ensures { HostLookedUp shelf.now disk offset out.old result out.new }
{
    if out.len() != FOUND_SIZE {
        return OTHER_BUFFER;
    }
    match placement::look_up(value::shelf(shelf), disk, offset) {
        Ok(LookUp::Data { stripe, address }) => {
            numbers::put_all(out, 0, &[stripe, address, 0]);
            0
        }
        Ok(LookUp::Parity(stripe)) => {
            numbers::put_all(out, 0, &[stripe, 0, 1]);
            0
        }
        Err(refusal) => refusal.number(),
    }
}

// The places of the addresses from `first` on, one for each record; by number, since a proof knows nothing of the bytes behind
// `chunks_exact_mut`.
fn put_run(checked: Checked, first: usize, out: &mut [u8])
    requires { (length out.old % 16 ≡ 0) × (first + length out.old / 16 ≤ addresses (layout_in checked.shelf.now)) }
    ensures { out.new ≡ spots_into (layout_in checked.entry.shelf.now) first 0 (length out.old / 16) out.old }
{
    for i in 0..out.len() / SPOT_SIZE {
        put_spot(out, i, checked.spot(first + i));
    }
}

// The places of the consecutive addresses from `first` on, 16 bytes each.
#[unsafe(no_mangle)]
#[tactic(auto, unfolding(parity::specs::Calls::by))]
pub extern "C" fn shqemtuli_run(shelf: &[u8], first: usize, out: &mut [u8]) -> usize
    ensures { HostRan shelf.now first out.old result out.new }
{
    if out.len() % SPOT_SIZE != 0 {
        return OTHER_BUFFER;
    }
    let taken = value::shelf(shelf);
    match placement::run_verdict(taken, first, out.len() / SPOT_SIZE) {
        Ok(()) => {
            put_run(Checked { shelf: &taken }, first, out);
            0
        }
        Err(refusal) => refusal.number(),
    }
}
