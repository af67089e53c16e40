// Parts of what is lent, handed out and not copied.
ghost use Rattle.std.specs.Prelude.{◌≡◌, cond, ◌+◌, ◌*◌, ◌<◌, length};
ghost use Rattle.placement.specs.Layout.{layout_in, stripe_of, j_of};
ghost use Rattle.parity.specs.Units.{unit_at};
ghost use Rattle.parity.specs.Stripe.{unit_size, depth, image_size, unit_in, present, cell};
ghost use Rattle.parity.specs.inner.Shapes.{UnitCall};

use crate::{presence, sizes};
use placement::Checked;

// The unit at a place.
pub fn part<'a>(checked: Checked, image: &'a [u8], disk: usize, offset: usize) -> &'a [u8]
    requires size { length image.now ≡ image_size checked.shelf.now }
    requires place { (disk < checked.shelf.now.v) × (offset < depth checked.shelf.now) }
    ensures { result.now ≡ unit_at (unit_size checked.entry.shelf.now) image.now (disk * depth checked.entry.shelf.now + offset) }
{
    let size = sizes::unit_size(checked);
    let at = sizes::unit_at(checked, disk, offset) * size;
    &image[at..at + size]
}

// The unit of an address, or the other buffer where its disk is lost.
pub fn shown<'a>(checked: Checked, image: &'a [u8], address: usize, other: &'a [u8]) -> &'a [u8]
    requires { UnitCall checked.shelf.now image.now address other.now }
    ensures { result.now ≡ cond (present checked.entry.shelf.now (unit_in checked.entry.shelf.now (stripe_of (layout_in checked.entry.shelf.now) address) (j_of (layout_in checked.entry.shelf.now) address))) (cell checked.entry.shelf.now image.now (stripe_of (layout_in checked.entry.shelf.now) address) (j_of (layout_in checked.entry.shelf.now) address)) other.now }
{
    let spot = checked.spot(address);
    let n = sizes::unit_at(checked, spot.disk, spot.offset);
    if presence::is_present(checked, n) {
        return part(checked, image, spot.disk, spot.offset);
    }
    other
}
