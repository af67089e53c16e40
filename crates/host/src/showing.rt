// Where a part that is shown starts. A part cannot be handed out through C, so its first byte's number in the image is.
ghost use Rattle.std.specs.Prelude.{◌≡◌, ◌+◌, ◌*◌, ◌<◌, length};
ghost use Rattle.parity.specs.Stripe.{unit_size, depth};
ghost use Rattle.host.specs.Value.{shelf_in};
ghost use Rattle.host.specs.Stored.{place_start, address_start};

use crate::value;
use placement::Checked;

// Not shown. A number, since C has no Option.
const REFUSED: usize = usize::MAX;

// Shown, but not in the image.
const SECOND_BUFFER: usize = usize::MAX - 1;

fn start(checked: Checked, disk: usize, offset: usize) -> usize
    requires { (disk < checked.shelf.now.v) × (offset < depth checked.shelf.now) }
    ensures { result ≡ (disk * depth checked.entry.shelf.now + offset) * unit_size checked.entry.shelf.now }
{
    (disk * checked.offsets() + offset) * (1 << checked.shelf.u)
}

// Where the unit at a place starts in the image.
#[unsafe(no_mangle)]
pub extern "C" fn shqemtuli_show_place(
    shelf: &[u8],
    image: &[u8],
    disk: usize,
    offset: usize,
) -> usize
    ensures { result ≡ place_start (shelf_in shelf.now) (length image.now) disk offset }
{
    let taken = value::shelf(shelf);
    let part = parity::show_place(taken, image, disk, offset);
    if part.is_empty() {
        return REFUSED;
    }
    let checked = Checked { shelf: &taken };
    start(checked, disk, offset)
}

// Where the unit of an address starts in the image, or that it is the second buffer. An address that may be shown is not in the
// image exactly where its place may not be shown.
#[unsafe(no_mangle)]
pub extern "C" fn shqemtuli_show_address<'a>(
    shelf: &[u8],
    image: &'a [u8],
    address: usize,
    other: &'a [u8],
) -> usize
    ensures { result ≡ address_start (shelf_in shelf.now) (length image.now) address (length other.now) }
{
    let taken = value::shelf(shelf);
    let part = parity::show_address(taken, image, address, other);
    if part.is_empty() {
        return REFUSED;
    }
    let checked = Checked { shelf: &taken };
    let spot = checked.spot(address);
    let here = parity::show_place(taken, image, spot.disk, spot.offset);
    if here.is_empty() {
        return SECOND_BUFFER;
    }
    start(checked, spot.disk, spot.offset)
}
