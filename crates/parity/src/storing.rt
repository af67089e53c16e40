// Reading and writing the units of one stripe, for calls that have passed their rules.
ghost use Rattle.std.specs.Prelude.{◌≡◌, ◌+◌, ◌*◌, ◌≤◌, ◌<◌, length};
ghost use Rattle.placement.specs.Layout.{layout_in, addresses, stripe_of, j_of};
ghost use Rattle.parity.specs.Units.{unit_at, xor_u};
ghost use Rattle.parity.specs.Stripe.{others};
ghost use Rattle.parity.specs.Calls.{cost, fetched, read_cost, unit_written, write_reads, write_writes};
ghost use Rattle.parity.specs.inner.Stores.{put_unit};
ghost use Rattle.parity.specs.inner.Shapes.{DataCall, UnitCall, resealed, standing_in};

use crate::stripe::Stripes;
use crate::{Cost, presence, sizes, units};
use placement::Checked;

// Where the unit of an address stands: its stripe and its index there, and the numbers in the image of the unit and of the stripe's
// parity.
#[derive(Clone, Copy)]
struct Standing {
    stripe: usize,
    index: usize,
    unit: usize,
    parity: usize,
}

fn standing_of(checked: Checked, address: usize) -> Standing
    requires { address < addresses (layout_in checked.shelf.now) }
    ensures { result ≡ standing_in checked.entry.shelf.now address }
{
    let spot = checked.spot(address);
    let count = checked.shelf.k - 1;
    Standing {
        stripe: address / count,
        index: address % count,
        unit: sizes::unit_at(checked, spot.disk, spot.offset),
        parity: sizes::unit_at(checked, spot.parity_disk, spot.parity_offset),
    }
}

// The unit of an address, from its place or from the other units of its stripe; how many units were read.
pub fn fetch(checked: Checked, image: &[u8], address: usize, buffer: &mut [u8]) -> usize
    requires { UnitCall checked.shelf.now image.now address buffer.old }
    ensures { (result ≡ read_cost checked.entry.shelf.now (stripe_of (layout_in checked.entry.shelf.now) address) (j_of (layout_in checked.entry.shelf.now) address)) × (buffer.new ≡ fetched checked.entry.shelf.now image.now (stripe_of (layout_in checked.entry.shelf.now) address) (j_of (layout_in checked.entry.shelf.now) address)) }
{
    let at = standing_of(checked, address);
    if presence::is_present(checked, at.unit) {
        units::load(buffer, image, at.unit);
        return 1;
    }
    fetch_lost(checked, image, at.stripe, at.index, buffer);
    checked.shelf.k - 1
}

// Data j of stripe s, whose disk is lost. The places of all entries of the table are found in one pass.
fn fetch_lost(checked: Checked, image: &[u8], s: usize, j: usize, buffer: &mut [u8])
    requires { DataCall checked.shelf.now image.now s j buffer.old }
    ensures { buffer.new ≡ others checked.entry.shelf.now image.now s j }
{
    Stripes::of(checked).gather(buffer, image, s, j);
}

// Data and parity; the parity alone, where the data disk is lost; the data alone, where the parity disk is.
pub fn store(checked: Checked, image: &mut [u8], address: usize, unit: &[u8]) -> Cost
    requires { UnitCall checked.shelf.now image.old address unit.now }
    ensures { (result ≡ cost (write_reads checked.entry.shelf.now (stripe_of (layout_in checked.entry.shelf.now) address) (j_of (layout_in checked.entry.shelf.now) address)) (write_writes checked.entry.shelf.now (stripe_of (layout_in checked.entry.shelf.now) address) (j_of (layout_in checked.entry.shelf.now) address))) × (image.new ≡ unit_written checked.entry.shelf.now image.old (stripe_of (layout_in checked.entry.shelf.now) address) (j_of (layout_in checked.entry.shelf.now) address) unit.now) }
{
    let at = standing_of(checked, address);
    if !presence::is_present(checked, at.parity) {
        units::store(image, at.unit, unit);
        return Cost {
            read: 0,
            written: 1,
        };
    }
    if !presence::is_present(checked, at.unit) {
        store_lost(checked, image, at.stripe, at.index, unit);
        return Cost {
            read: checked.shelf.k - 2,
            written: 1,
        };
    }
    renew(image, at.unit, at.parity, unit);
    Cost {
        read: 2,
        written: 2,
    }
}

// The parity alone holds data j of stripe s, whose disk is lost.
fn store_lost(checked: Checked, image: &mut [u8], s: usize, j: usize, unit: &[u8])
    requires { DataCall checked.shelf.now image.old s j unit.now }
    ensures { image.new ≡ resealed checked.entry.shelf.now image.old s j unit.now }
{
    Stripes::of(checked).reparity(image, s, j, unit);
}

// Unit n becomes the lent one, and the parity changes by the old and the new.
fn renew(image: &mut [u8], n: usize, parity: usize, unit: &[u8])
    requires { (n * length unit.now + length unit.now ≤ length image.old) × (parity * length unit.now + length unit.now ≤ length image.old) }
    ensures { image.new ≡ put_unit (length unit.now) (put_unit (length unit.now) image.old parity (xor_u (unit_at (length unit.now) image.old parity) (xor_u (unit_at (length unit.now) image.old n) unit.now))) n unit.now }
{
    units::mix_both(image, parity, n, unit);
    units::store(image, n, unit);
}
