// The rules of the calls, in the order of their numbers. No number of a shelf value is reckoned with before rule 10 has passed it.
ghost use Rattle.std.specs.Prelude.{◌≡◌, IfOk};
ghost use Rattle.design.specs.Refusals.{first_broken, verdict};
ghost use Rattle.parity.specs.Calls.{whole_rules, unit_rules, stripe_rules, lose_rules, rebuild_rules, place_rules};
ghost use Rattle.parity.specs.inner.Judged.{image_rules, rule_of};

use crate::{presence, sizes};
use design::{Refusal, Shelf};
use placement::Checked;

// A rule that is kept or gives its refusal.
fn keep(kept: bool, refusal: Refusal) -> Result<(), Refusal>
    ensures { result ≡ first_broken (rule_of kept refusal) }
{
    if kept { Ok(()) } else { Err(refusal) }
}

// 10 11, of an image of n bytes: the rules that all calls on an image begin with.
fn of_image(shelf: &Shelf, n: usize) -> Result<Checked<'_>, Refusal>
    ensures judged { verdict result ≡ first_broken (image_rules shelf.now n) }
    ensures passed { IfOk result (λ checked. checked.shelf.now ≡ shelf.now) }
{
    let checked = Checked::of(shelf)?;
    keep(n == sizes::image_size(checked), Refusal::OtherImage)?;
    Ok(checked)
}

// 10 11 14, of an image of n bytes.
pub fn of_whole(shelf: &Shelf, n: usize) -> Result<Checked<'_>, Refusal>
    ensures judged { verdict result ≡ first_broken (whole_rules shelf.now n) }
    ensures passed { IfOk result (λ checked. checked.shelf.now ≡ shelf.now) }
{
    let checked = of_image(shelf, n)?;
    keep(presence::is_whole(shelf.loss), Refusal::SomeLost)?;
    Ok(checked)
}

// 10 11 12 13, of an image of n bytes and a unit buffer of m.
pub fn of_unit(shelf: &Shelf, n: usize, address: usize, m: usize) -> Result<Checked<'_>, Refusal>
    ensures judged { verdict result ≡ first_broken (unit_rules shelf.now n address m) }
    ensures passed { IfOk result (λ checked. checked.shelf.now ≡ shelf.now) }
{
    let checked = of_image(shelf, n)?;
    keep(address < checked.addresses(), Refusal::OutOfRange)?;
    keep(m == sizes::unit_size(checked), Refusal::OtherBuffer)?;
    Ok(checked)
}

// 10 11 12 13, of an image of n bytes and a stripe buffer of m.
pub fn of_stripe(shelf: &Shelf, n: usize, stripe: usize, m: usize) -> Result<Checked<'_>, Refusal>
    ensures judged { verdict result ≡ first_broken (stripe_rules shelf.now n stripe m) }
    ensures passed { IfOk result (λ checked. checked.shelf.now ≡ shelf.now) }
{
    let checked = of_image(shelf, n)?;
    keep(stripe < checked.stripes(), Refusal::OutOfRange)?;
    keep(
        m == (shelf.k - 1) * sizes::unit_size(checked),
        Refusal::OtherBuffer,
    )?;
    Ok(checked)
}

// 10 12 14.
pub fn of_lose(shelf: &Shelf, disk: usize) -> Result<(), Refusal>
    ensures { result ≡ first_broken (lose_rules shelf.now disk) }
{
    keep(shelf.is_shelf(), Refusal::NotAShelf)?;
    keep(disk < shelf.v, Refusal::OutOfRange)?;
    keep(presence::is_whole(shelf.loss), Refusal::SomeLost)
}

// 10 11 15, of an image of n bytes.
pub fn of_rebuild(shelf: &Shelf, n: usize) -> Result<Checked<'_>, Refusal>
    ensures judged { verdict result ≡ first_broken (rebuild_rules shelf.now n) }
    ensures passed { IfOk result (λ checked. checked.shelf.now ≡ shelf.now) }
{
    let checked = of_image(shelf, n)?;
    keep(!presence::is_whole(shelf.loss), Refusal::NoneLost)?;
    Ok(checked)
}

// 10 11 12 14, of an image of n bytes.
pub fn of_place(shelf: &Shelf, n: usize, disk: usize, offset: usize) -> Result<Checked<'_>, Refusal>
    ensures judged { verdict result ≡ first_broken (place_rules shelf.now n disk offset) }
    ensures passed { IfOk result (λ checked. checked.shelf.now ≡ shelf.now) }
{
    let checked = of_image(shelf, n)?;
    keep(disk < shelf.v, Refusal::OutOfRange)?;
    keep(offset < checked.offsets(), Refusal::OutOfRange)?;
    let unit = sizes::unit_at(checked, disk, offset);
    keep(presence::is_present(checked, unit), Refusal::SomeLost)?;
    Ok(checked)
}
