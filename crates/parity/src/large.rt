// Large writes: the data of a whole stripe and its parity, with nothing read.
ghost use Rattle.std.specs.Prelude.{◌≡◌};
ghost use Rattle.parity.specs.Calls.{stripe_written, stripe_writes};
ghost use Rattle.parity.specs.inner.Shapes.{StripeCall};

use crate::stripe::Stripes;
use crate::{presence, units};
use placement::Checked;

// The data of a stripe and its parity, any unit on the lost disk left out; how many units were written.
pub fn store_stripe(checked: Checked, image: &mut [u8], s: usize, buffer: &[u8]) -> usize
    requires { StripeCall checked.shelf.now image.old s buffer.now }
    ensures { (result ≡ stripe_writes checked.entry.shelf.now s) × (image.new ≡ stripe_written checked.entry.shelf.now image.old s buffer.now) }
{
    let stripes = Stripes::of(checked);
    let mut written = 0;
    for (i, unit) in buffer.chunks_exact(stripes.size).enumerate() {
        let n = stripes.number(s, i);
        if presence::is_present(checked, n) {
            units::store(image, n, unit);
            written += 1;
        }
    }
    let parity = stripes.number(s, checked.shelf.k - 1);
    if presence::is_present(checked, parity) {
        stripes.seal(image, parity, buffer);
        written += 1;
    }
    written
}
