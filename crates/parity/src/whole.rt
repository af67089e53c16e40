// The exclusive-or of numbered units, unit after unit: where a stripe has two or three, or they are no whole blocks.
ghost use Rattle.std.specs.Prelude.{◌≡◌, cond, ◌+◌, ◌-◌, ◌*◌, ◌/◌, ◌≤◌, ◌<◌, ltb, eqb, length};
ghost use Rattle.parity.specs.Units.{unit_at, xor_sum};
ghost use Rattle.parity.specs.inner.Stores.{put_unit};
ghost use Rattle.parity.specs.inner.Blocks.{sum_with, rest_of, numbered, Within, Placed};

use crate::units;

// The first index beside i, and the second.
fn first_beside(i: usize) -> usize
    ensures { result ≡ cond (eqb i 0) 1 0 }
{
    if i == 0 { 1 } else { 0 }
}

fn second_beside(i: usize) -> usize
    ensures { result ≡ cond (ltb i 2) 2 1 }
{
    if i < 2 { 2 } else { 1 }
}

// Begins the exclusive-or of the units beside unit i, in unit i, with the first two of them in one pass, where there are two; how
// many units are then done.
fn begin(image: &mut [u8], numbers: &[usize], i: usize, size: usize) -> usize
    requires bounds { (2 ≤ length numbers.now) × (i < length numbers.now) }
    requires within { Within size (numbered numbers.now) (length numbers.now) (length image.old) }
    ensures { (result ≤ length numbers.now) × (image.new ≡ put_unit size image.old (numbered numbers.now i) (rest_of size image.old (numbered numbers.now) i result)) }
{
    let to = numbers[i];
    if numbers.len() == 2 {
        units::clear_unit(image, to, size);
        return 0;
    }
    let second = second_beside(i);
    let x = numbers[first_beside(i)];
    let y = numbers[second];
    units::join(image, to, x, y, size);
    second + 1
}

// Unit i becomes the exclusive-or of the others.
pub fn restore(image: &mut [u8], numbers: &[usize], i: usize, size: usize)
    requires bounds { (2 ≤ length numbers.now) × (i < length numbers.now) }
    requires placed { Placed size (numbered numbers.now) (length numbers.now) (length image.old) }
    ensures { image.new ≡ put_unit size image.old (numbered numbers.now i) (rest_of size image.old (numbered numbers.now) i (length numbers.now)) }
{
    let to = numbers[i];
    let begun = begin(image, numbers, i, size);
    for &from in &numbers[begun..] {
        if from != to {
            units::mix_within(image, to, from, size);
        }
    }
}

// The lent unit becomes the exclusive-or of the units but unit i; with their count for i, of all of them.
pub fn gather(unit: &mut [u8], row: &[u8], numbers: &[usize], i: usize)
    requires within { Within (length unit.old) (numbered numbers.now) (length numbers.now) (length row.now) }
    ensures { unit.new ≡ rest_of (length unit.old) row.now (numbered numbers.now) i (length numbers.now) }
{
    unit.fill(0);
    for (j, &from) in numbers.iter().enumerate() {
        if j != i {
            units::mix_out(unit, row, from);
        }
    }
}

// The last unit becomes the exclusive-or of the others, with the lent unit for unit j.
pub fn reparity(image: &mut [u8], numbers: &[usize], j: usize, unit: &[u8])
    requires bounds { 1 ≤ length numbers.now }
    requires placed { Placed (length unit.now) (numbered numbers.now) (length numbers.now) (length image.old) }
    ensures { image.new ≡ put_unit (length unit.now) image.old (numbered numbers.now (length numbers.now - 1)) (sum_with (length unit.now) image.old (numbered numbers.now) j unit.now (length numbers.now - 1)) }
{
    let size = unit.len();
    let parity = numbers.len() - 1;
    let to = numbers[parity];
    units::clear_unit(image, to, size);
    for (i, &from) in numbers[..parity].iter().enumerate() {
        if i == j {
            units::mix_in(image, to, unit);
        } else {
            units::mix_within(image, to, from, size);
        }
    }
}

// Unit n of the image becomes the exclusive-or of the units of a lent buffer.
pub fn seal(image: &mut [u8], n: usize, buffer: &[u8], size: usize)
    requires { (0 < size) × (n * size + size ≤ length image.old) }
    ensures { image.new ≡ put_unit size image.old n (xor_sum size (unit_at size buffer.now) (length buffer.now / size)) }
{
    units::clear_unit(image, n, size);
    for unit in buffer.chunks_exact(size) {
        units::mix_in(image, n, unit);
    }
}
