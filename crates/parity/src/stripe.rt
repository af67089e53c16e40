// The stripes of a shelf: where their units stand, and the exclusive-or of the units of one, into a unit of the image or into a lent one,
// block by block where that serves.
ghost use Rattle.std.specs.Prelude.{◌≡◌, ◌+◌, ◌-◌, ◌*◌, ◌≤◌, ◌<◌, length};
ghost use Rattle.placement.specs.Layout.{layout_in, stripes};
ghost use Rattle.parity.specs.Units.{unit_at, xor_sum};
ghost use Rattle.parity.specs.Stripe.{unit_size, depth, image_size, unit_in, others};
ghost use Rattle.parity.specs.inner.Stores.{Ranked, put_unit};
ghost use Rattle.parity.specs.inner.Blocks.{Listed};
ghost use Rattle.parity.specs.inner.Shapes.{DataCall, StripeUnit, renewed, resealed};

use crate::{blocks, sizes, units, whole};
use design::Shelf;
use placement::unchecked::PerEntry;
use placement::{Checked, unchecked};

// The numbers of the units of a stripe.
type Numbers = [usize; Shelf::K_MOST];

// What the units of a shelf's stripes are found by, reckoned once for a call.
#[derive(Drop)]
pub struct Stripes<'a> {
    checked: Checked<'a>,
    // For each entry of the table, how many before it have the same disk.
    ranks: PerEntry,
    // The units of a disk.
    offsets: usize,
    // The bytes of a unit.
    pub size: usize,
    ghost ranked: { Ranked checked.shelf.now.table (checked.shelf.now.b * checked.shelf.now.k) ranks },
    ghost deep: { offsets ≡ depth checked.shelf.now },
    ghost sized: { size ≡ unit_size checked.shelf.now },
}

impl<'a> Stripes<'a> {
    pub fn of(checked: Checked<'a>) -> Stripes<'a>
        ensures { result.checked.shelf.now ≡ checked.entry.shelf.now }
    {
        Stripes {
            checked,
            ranks: checked.ranks(),
            offsets: checked.offsets(),
            size: sizes::unit_size(checked),
        }
    }

    // The number in the image of unit i of stripe s: data i below k - 1, the parity at k - 1.
    pub fn number(&self, s: usize, i: usize) -> usize
        requires { StripeUnit self.now.checked.shelf.now s i }
        ensures { result ≡ unit_in self.now.checked.shelf.now s i }
    {
        let shelf = self.checked.shelf;
        let k = shelf.k;
        let row = s / shelf.b;
        let parity = k - 1 - row % k;
        let position = if i < k - 1 {
            unchecked::position_of(parity, i)
        } else {
            parity
        };
        let entry = s % shelf.b * k + position;
        let disk = usize::from(shelf.table[entry]);
        disk * self.offsets + (row * shelf.r + usize::from(self.ranks[entry]))
    }

    // Those of all units of stripe s, and zeros.
    fn numbers(&self, s: usize) -> Numbers
        requires { s < stripes (layout_in self.now.checked.shelf.now) }
        ensures count { length result ≡ 16 }
        ensures listed { Listed result (unit_in self.now.checked.shelf.now s) self.now.checked.shelf.now.k }
    {
        let mut numbers = [0; Shelf::K_MOST];
        for (i, number) in numbers[..self.checked.shelf.k].iter_mut().enumerate() {
            *number = self.number(s, i);
        }
        numbers
    }

    // Unit i of stripe s becomes the exclusive-or of the others.
    pub fn restore(&self, image: &mut [u8], s: usize, i: usize)
        requires size { length image.old ≡ image_size self.now.checked.shelf.now }
        requires unit { StripeUnit self.now.checked.shelf.now s i }
        ensures { image.new ≡ renewed self.now.checked.shelf.now image.old s i (others self.now.checked.shelf.now image.old s i) }
    {
        let size = self.size;
        let numbers = self.numbers(s);
        let numbers = &numbers[..self.checked.shelf.k];
        if blocks::serve(numbers.len(), size) {
            blocks::restore(image, numbers, i, size / blocks::BLOCK);
        } else {
            whole::restore(image, numbers, i, size);
        }
    }

    // The lent unit becomes the exclusive-or of the units of stripe s but unit i; with k for i, of all of them.
    pub fn gather(&self, unit: &mut [u8], image: &[u8], s: usize, i: usize)
        requires size { length image.now ≡ image_size self.now.checked.shelf.now }
        requires stripe { s < stripes (layout_in self.now.checked.shelf.now) }
        requires unit { length unit.old ≡ unit_size self.now.checked.shelf.now }
        ensures { unit.new ≡ others self.now.checked.shelf.now image.now s i }
    {
        let size = self.size;
        let numbers = self.numbers(s);
        let numbers = &numbers[..self.checked.shelf.k];
        if blocks::serve(numbers.len(), size) {
            blocks::gather(unit, 0, image, numbers, i, size / blocks::BLOCK);
        } else {
            whole::gather(unit, image, numbers, i);
        }
    }

    // For a lost data unit j, the parity becomes the exclusive-or of the data with the lent unit for it.
    pub fn reparity(&self, image: &mut [u8], s: usize, j: usize, unit: &[u8])
        requires { DataCall self.now.checked.shelf.now image.old s j unit.now }
        ensures { image.new ≡ resealed self.now.checked.shelf.now image.old s j unit.now }
    {
        let size = self.size;
        let numbers = self.numbers(s);
        let numbers = &numbers[..self.checked.shelf.k];
        if blocks::serve(numbers.len(), size) {
            blocks::reparity(image, numbers, j, unit, size / blocks::BLOCK);
        } else {
            whole::reparity(image, numbers, j, unit);
        }
    }

    // Unit n of the image becomes the exclusive-or of the units of a stripe buffer.
    pub fn seal(&self, image: &mut [u8], n: usize, buffer: &[u8])
        requires unit { n * unit_size self.now.checked.shelf.now + unit_size self.now.checked.shelf.now ≤ length image.old }
        requires buffer { length buffer.now ≡ (self.now.checked.shelf.now.k - 1) * unit_size self.now.checked.shelf.now }
        ensures { image.new ≡ put_unit (unit_size self.now.checked.shelf.now) image.old n (xor_sum (unit_size self.now.checked.shelf.now) (unit_at (unit_size self.now.checked.shelf.now) buffer.now) (self.now.checked.shelf.now.k - 1)) }
    {
        let k = self.checked.shelf.k;
        let size = self.size;
        if blocks::serve(k, size) {
            blocks::seal(image, n, buffer, k - 1, size / blocks::BLOCK);
        } else {
            whole::seal(image, n, buffer, size);
        }
    }
}
