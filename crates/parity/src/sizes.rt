// The sizes of a shelf's image and of its units.
ghost use Rattle.std.specs.Prelude.{◌≡◌, ◌+◌, ◌*◌, ◌<◌};
ghost use Rattle.parity.specs.Stripe.{unit_size, depth, image_size};

use placement::Checked;

// U.
pub fn unit_size(checked: Checked) -> usize
    ensures { result ≡ unit_size checked.entry.shelf.now }
{
    1 << checked.shelf.u
}

// The bytes of v disks.
pub fn image_size(checked: Checked) -> usize
    ensures { result ≡ image_size checked.entry.shelf.now }
{
    checked.shelf.v * checked.offsets() * unit_size(checked)
}

// The number in the image of the unit at a place.
pub fn unit_at(checked: Checked, disk: usize, offset: usize) -> usize
    requires { (disk < checked.shelf.now.v) × (offset < depth checked.shelf.now) }
    ensures { result ≡ disk * depth checked.entry.shelf.now + offset }
{
    disk * checked.offsets() + offset
}
