// Units of the image, by their numbers.
ghost use Rattle.std.specs.Prelude.{◌≡◌, ◌+◌, ◌*◌, ◌≤◌, length};
ghost use Rattle.parity.specs.Units.{zeros, unit_at, xor_u};
ghost use Rattle.parity.specs.inner.Stores.{put_unit};

use crate::bytes;

pub fn clear_unit(image: &mut [u8], n: usize, size: usize)
    requires { n * size + size ≤ length image.old }
    ensures { image.new ≡ put_unit size image.old n (zeros size) }
{
    let at = n * size;
    image[at..at + size].fill(0);
}

pub fn store(image: &mut [u8], n: usize, unit: &[u8])
    requires { n * length unit.now + length unit.now ≤ length image.old }
    ensures { image.new ≡ put_unit (length unit.now) image.old n unit.now }
{
    let size = unit.len();
    let at = n * size;
    bytes::copy(&mut image[at..at + size], unit);
}

// Unit n, into a lent one.
pub fn load(unit: &mut [u8], image: &[u8], n: usize)
    requires { n * length unit.old + length unit.old ≤ length image.now }
    ensures { unit.new ≡ unit_at (length unit.old) image.now n }
{
    let size = unit.len();
    let at = n * size;
    bytes::copy(unit, &image[at..at + size]);
}

// Mixes a lent unit into unit n.
pub fn mix_in(image: &mut [u8], n: usize, unit: &[u8])
    requires { n * length unit.now + length unit.now ≤ length image.old }
    ensures { image.new ≡ put_unit (length unit.now) image.old n (xor_u (unit_at (length unit.now) image.old n) unit.now) }
{
    let size = unit.len();
    let at = n * size;
    bytes::mix(&mut image[at..at + size], unit);
}

// Mixes unit n into a lent unit.
pub fn mix_out(unit: &mut [u8], image: &[u8], n: usize)
    requires { n * length unit.old + length unit.old ≤ length image.now }
    ensures { unit.new ≡ xor_u unit.old (unit_at (length unit.old) image.now n) }
{
    let size = unit.len();
    let at = n * size;
    bytes::mix(unit, &image[at..at + size]);
}

// Unit `to` becomes the exclusive-or of units x and y, in one pass: the loop that a rebuild spends its time in. Unit `to` may be one of
// them, so the three are reached by index: no split of the image lends one part twice.
pub fn join(image: &mut [u8], to: usize, x: usize, y: usize, size: usize)
    requires { (to * size + size ≤ length image.old) × (x * size + size ≤ length image.old) × (y * size + size ≤ length image.old) }
    ensures { image.new ≡ put_unit size image.old to (xor_u (unit_at size image.old x) (unit_at size image.old y)) }
{
    let a = to * size;
    let b = x * size;
    let c = y * size;
    for i in 0..size {
        image[a + i] = image[b + i] ^ image[c + i];
    }
}

// Mixes unit `from` into unit `to`.
pub fn mix_within(image: &mut [u8], to: usize, from: usize, size: usize)
    requires { (to * size + size ≤ length image.old) × (from * size + size ≤ length image.old) }
    ensures { image.new ≡ put_unit size image.old to (xor_u (unit_at size image.old to) (unit_at size image.old from)) }
{
    join(image, to, to, from, size);
}

// Mixes unit `from` and a lent unit into unit `to`, in one pass, by index as in `join`.
pub fn mix_both(image: &mut [u8], to: usize, from: usize, unit: &[u8])
    requires { (to * length unit.now + length unit.now ≤ length image.old) × (from * length unit.now + length unit.now ≤ length image.old) }
    ensures { image.new ≡ put_unit (length unit.now) image.old to (xor_u (unit_at (length unit.now) image.old to) (xor_u (unit_at (length unit.now) image.old from) unit.now)) }
{
    let size = unit.len();
    let a = to * size;
    let b = from * size;
    for i in 0..size {
        image[a + i] = image[a + i] ^ (image[b + i] ^ unit[i]);
    }
}
