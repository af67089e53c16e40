// The sizes of a shelf, in units or in bytes; 0 where the value is none. Six functions, since C knows them by these names.
ghost use Rattle.std.specs.Prelude.{◌≡◌};
ghost use Rattle.placement.specs.Layout.{layout_in, stripes, addresses, offsets};
ghost use Rattle.parity.specs.Stripe.{unit_size, image_size};
ghost use Rattle.host.specs.Sheets.{sized, sheet_size};

use crate::value;
use design::Shelf;
use placement::Checked;

#[derive(Clone, Copy, Default)]
struct Sizes {
    sheet: usize,
    image: usize,
    unit: usize,
    stripes: usize,
    addresses: usize,
    offsets: usize,
}

fn measure(shelf: &[u8]) -> Sizes
    ensures sheet { result.sheet ≡ sized sheet_size shelf.now }
    ensures image { result.image ≡ sized image_size shelf.now }
    ensures unit { result.unit ≡ sized unit_size shelf.now }
    ensures stripes { result.stripes ≡ sized (λ h. stripes (layout_in h)) shelf.now }
    ensures addresses { result.addresses ≡ sized (λ h. addresses (layout_in h)) shelf.now }
    ensures offsets { result.offsets ≡ sized (λ h. offsets (layout_in h)) shelf.now }
{
    let taken = value::shelf(shelf);
    let Ok(checked) = Checked::of(&taken) else {
        return Sizes::default();
    };
    let Shelf { v, k, b, u, .. } = *checked.shelf;
    let unit = 1 << u;
    let offsets = checked.offsets();
    let sheet = 6 + (6 * (b * k) + 7) / 8;
    let image = v * offsets * unit;
    Sizes {
        sheet,
        image,
        unit,
        stripes: checked.stripes(),
        addresses: checked.addresses(),
        offsets,
    }
}

// The bytes of the sheet.
#[unsafe(no_mangle)]
pub extern "C" fn shqemtuli_sheet_length(shelf: &[u8]) -> usize
    ensures { result ≡ sized sheet_size shelf.now }
{
    measure(shelf).sheet
}

// The bytes of the image.
#[unsafe(no_mangle)]
pub extern "C" fn shqemtuli_image_size(shelf: &[u8]) -> usize
    ensures { result ≡ sized image_size shelf.now }
{
    measure(shelf).image
}

// U, the bytes of a unit.
#[unsafe(no_mangle)]
pub extern "C" fn shqemtuli_unit_size(shelf: &[u8]) -> usize
    ensures { result ≡ sized unit_size shelf.now }
{
    measure(shelf).unit
}

// S.
#[unsafe(no_mangle)]
pub extern "C" fn shqemtuli_stripes(shelf: &[u8]) -> usize
    ensures { result ≡ sized (λ h. stripes (layout_in h)) shelf.now }
{
    measure(shelf).stripes
}

// N.
#[unsafe(no_mangle)]
pub extern "C" fn shqemtuli_addresses(shelf: &[u8]) -> usize
    ensures { result ≡ sized (λ h. addresses (layout_in h)) shelf.now }
{
    measure(shelf).addresses
}

// The units on each disk.
#[unsafe(no_mangle)]
pub extern "C" fn shqemtuli_offsets(shelf: &[u8]) -> usize
    ensures { result ≡ sized (λ h. offsets (layout_in h)) shelf.now }
{
    measure(shelf).offsets
}
