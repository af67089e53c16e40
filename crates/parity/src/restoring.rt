// The rebuild of the lost disk, offset after offset, and what it reads.
ghost use Rattle.std.specs.Prelude.{◌≡◌, false, cond, ◌-◌, ◌≤◌, ◌<◌, ltb, eqb, length};
ghost use Rattle.design.specs.Count.{list_from};
ghost use Rattle.design.specs.Loss.{is_whole};
ghost use Rattle.parity.specs.Stripe.{depth, image_size};
ghost use Rattle.parity.specs.Calls.{restored, read_from};

use crate::presence;
use crate::stripe::Stripes;
use design::Shelf;
use placement::{Checked, unchecked};

// Which unit of its stripe stands at a position: data before and after the parity in address order, the parity last.
fn index_of(k: usize, parity: usize, position: usize) -> usize
    requires { (position < k) × (parity < k) }
    ensures { result ≡ cond (eqb position parity) (k - 1) (cond (ltb position parity) position (position - 1)) }
{
    if position == parity {
        return k - 1;
    }
    unchecked::index_of(parity, position)
}

// Each unit of the lost disk with an offset from `from` up to `to` becomes the exclusive-or of the rest of its stripe. Where the disk's
// tuples stand in the table is looked up once.
pub fn restore_range(checked: Checked, image: &mut [u8], from: usize, to: usize)
    requires size { length image.old ≡ image_size checked.shelf.now }
    requires loss_value { is_whole checked.shelf.now.loss ≡ false }
    requires from_le_to { (from ≤ to) × (to ≤ depth checked.shelf.now) }
    ensures { image.new ≡ restored checked.entry.shelf.now image.old from to }
{
    let shelf = checked.shelf;
    let stripes = Stripes::of(checked);
    let entries = checked.entries(presence::lost_disk(shelf.loss));
    let k = shelf.k;
    for o in from..to {
        let entry = usize::from(entries[o % shelf.r]);
        let row = o / shelf.r;
        let s = row * shelf.b + entry / k;
        let i = index_of(k, k - 1 - row % k, entry % k);
        stripes.restore(image, s, i);
    }
}

// The units read from each disk: lambda for each copy, of which there are T·k, from every other disk below v.
pub fn counts(checked: Checked) -> [usize; Shelf::V_MOST]
    requires { is_whole checked.shelf.now.loss ≡ false }
    ensures { result ≡ list_from 0 64 (read_from checked.entry.shelf.now 0 (depth checked.entry.shelf.now)) }
{
    let shelf = checked.shelf;
    let mut counts = [0; Shelf::V_MOST];
    let each = shelf.T * shelf.k * shelf.lambda;
    for (e, count) in counts[..shelf.v].iter_mut().enumerate() {
        if !presence::is_lost(shelf.loss, e) {
            *count = each;
        }
    }
    counts
}
