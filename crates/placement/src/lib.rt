// Placement: the place of each address, what stands at a place, and runs of places (document 01, "Where a unit stands").
#![tactic(auto)]

ghost use Rattle.std.specs.Prelude.{◌≡◌};
ghost use Rattle.design.specs.Refusals.{first_broken};
ghost use Rattle.placement.specs.Placed.{placed, looked_up, run_rules, Ran};

use design::{Refusal, Shelf};

mod seek;
mod slots;
pub mod unchecked;

pub use unchecked::Checked;

// The place of an address and of its stripe's parity: one record of a run.
#[derive(Clone, Copy)]
pub struct Spot {
    pub disk: usize,
    pub offset: usize,
    pub parity_disk: usize,
    pub parity_offset: usize,
}

// What stands at a place: data, with its stripe and its address, or a stripe's parity.
#[derive(Clone, Copy)]
pub enum LookUp {
    Data { stripe: usize, address: usize },
    Parity(usize),
}

// Places an address.
pub fn place(shelf: Shelf, address: usize) -> Result<Spot, Refusal>
    ensures { result ≡ placed shelf address }
{
    let checked = Checked::of(&shelf)?;
    if checked.addresses() <= address {
        return Err(Refusal::OutOfRange);
    }
    Ok(checked.spot(address))
}

// Looks a place up.
pub fn look_up(shelf: Shelf, disk: usize, offset: usize) -> Result<LookUp, Refusal>
    ensures { result ≡ looked_up shelf disk offset }
{
    let checked = Checked::of(&shelf)?;
    if checked.shelf.v <= disk {
        return Err(Refusal::OutOfRange);
    }
    if checked.offsets() <= offset {
        return Err(Refusal::OutOfRange);
    }
    Ok(checked.stands_at(disk, offset))
}

// Of a run of n records, the first rule that is broken. The sum of `first` and n may not fit, so n is held against what is
// left.
pub fn run_verdict(shelf: Shelf, first: usize, n: usize) -> Result<(), Refusal>
    ensures { result ≡ first_broken (run_rules shelf first n) }
{
    let checked = Checked::of(&shelf)?;
    let addresses = checked.addresses();
    if addresses < first {
        return Err(Refusal::OutOfRange);
    }
    if addresses - first < n {
        return Err(Refusal::OutOfRange);
    }
    Ok(())
}

// Places the consecutive addresses from `first` on, one for each record of the list.
pub fn run(shelf: Shelf, first: usize, list: &mut [Spot]) -> Result<(), Refusal>
    ensures { Ran shelf first list.old result list.new }
{
    run_verdict(shelf, first, list.len())?;
    let checked = Checked { shelf: &shelf };
    for (i, spot) in list.iter_mut().enumerate() {
        *spot = checked.spot(first + i);
    }
    Ok(())
}
