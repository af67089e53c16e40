// The search for wrong stripes.
ghost use Rattle.std.specs.Prelude.{◌≡◌, length};
ghost use Rattle.design.specs.Count.{count};
ghost use Rattle.placement.specs.Layout.{layout_in, stripes};
ghost use Rattle.parity.specs.Stripe.{image_size, wrong};

use crate::bytes;
use crate::stripe::Stripes;
use design::Shelf;
use placement::Checked;

// The bytes of the largest unit.
const UNIT_MOST: usize = 1 << Shelf::U_MOST;

// How many stripes have an exclusive-or that is not all zeros.
pub fn count_wrong(checked: Checked, image: &[u8]) -> usize
    requires { length image.now ≡ image_size checked.shelf.now }
    ensures { result ≡ count (wrong checked.entry.shelf.now image.now) (stripes (layout_in checked.entry.shelf.now)) }
{
    let stripes = Stripes::of(checked);
    let mut row = [0u8; UNIT_MOST];
    let sum = &mut row[..stripes.size];
    let mut wrong = 0;
    for s in 0..checked.stripes() {
        stripes.gather(sum, image, s, checked.shelf.k);
        if !bytes::is_zero(sum) {
            wrong += 1;
        }
    }
    wrong
}
