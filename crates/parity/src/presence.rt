// What is lost of a shelf, and which units are present. No other module looks into the loss.
ghost use Rattle.std.specs.Prelude.{◌≡◌, true, false};
ghost use Rattle.design.specs.Loss.{is_whole, lost_in};
ghost use Rattle.parity.specs.Stripe.{present};

use design::Loss;
use placement::Checked;

// Whether no disk is lost.
pub fn is_whole(loss: Loss) -> bool
    ensures { result ≡ is_whole loss }
{
    loss.lost.is_none()
}

// Whether disk d is lost.
pub fn is_lost(loss: Loss, d: usize) -> bool
    ensures { result ≡ lost_in loss d }
{
    match loss.lost {
        None => false,
        Some(disk) => d == disk as usize,
    }
}

// The lost disk, where one is lost.
pub fn lost_disk(loss: Loss) -> u8
    requires { is_whole loss ≡ false }
    ensures { lost_in loss result ≡ true }
{
    loss.lost.unwrap()
}

// Whether unit n of the image is present: the one place where that is asked.
pub fn is_present(checked: Checked, n: usize) -> bool
    ensures { result ≡ present checked.entry.shelf.now n }
{
    !is_lost(checked.shelf.loss, n / checked.offsets())
}
