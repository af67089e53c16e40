// Units mixed block by block, each block from all of its sources: it is gathered in a local array of a fixed size, which the back end
// keeps in vector registers from the first source to the last. A block is a small unit: where each unit has `per` of them, block q of
// unit n is number n * per + q of the row.
ghost use Rattle.std.specs.Prelude.{◌≡◌, ◌+◌, ◌-◌, ◌*◌, ◌≤◌, ◌<◌, length};
ghost use Rattle.parity.specs.Units.{unit_at, xor_u, xor_sum};
ghost use Rattle.parity.specs.inner.Stores.{put_unit};
ghost use Rattle.parity.specs.inner.Blocks.{by_blocks, rest_of, numbered, blocks_at, Within};

use crate::units;
use design::Shelf;

// The bytes of a block.
pub const BLOCK: usize = 128;

type Block = [u8; BLOCK];

// The numbers of units that stand one after another from the first byte on.
const IN_ORDER: [usize; Shelf::K_MOST] = [0, 1, 2, 3, 4, 5, 6, 7, 8, 9, 10, 11, 12, 13, 14, 15];

// Whether the units of a stripe of k are mixed by blocks: where it has four or more, of whole blocks. Fewer are mixed as fast unit after
// unit.
pub fn serve(k: usize, size: usize) -> bool
    ensures { result ≡ by_blocks k size }
{
    3 < k && size % BLOCK == 0
}

// Block q of the exclusive-or of the numbered units but unit i; with their count for i, of all of them.
fn rest(row: &[u8], numbers: &[usize], i: usize, per: usize, q: usize) -> Block
    requires { Within 128 (blocks_at (numbered numbers.now) per q) (length numbers.now) (length row.now) }
    ensures { result ≡ rest_of 128 row.now (blocks_at (numbered numbers.now) per q) i (length numbers.now) }
{
    let mut block = [0u8; BLOCK];
    for (j, n) in numbers.iter().enumerate() {
        if j != i {
            units::mix_out(&mut block, row, n * per + q);
        }
    }
    block
}

// Unit i becomes the exclusive-or of the others.
pub fn restore(image: &mut [u8], numbers: &[usize], i: usize, per: usize)
    requires i_bound { i < length numbers.now }
    requires within { Within (per * 128) (numbered numbers.now) (length numbers.now) (length image.old) }
    ensures { image.new ≡ put_unit (per * 128) image.old (numbered numbers.now i) (rest_of (per * 128) image.old (numbered numbers.now) i (length numbers.now)) }
{
    let at = numbers[i] * per;
    for q in 0..per {
        let block = rest(image, numbers, i, per, q);
        units::store(image, at + q, &block);
    }
}

// The last unit becomes the exclusive-or of the others, with the lent unit for unit i.
pub fn reparity(image: &mut [u8], numbers: &[usize], i: usize, unit: &[u8], per: usize)
    requires bounds { (i < length numbers.now - 1) × (length unit.now ≡ per * 128) }
    requires within { Within (per * 128) (numbered numbers.now) (length numbers.now) (length image.old) }
    ensures { image.new ≡ put_unit (per * 128) image.old (numbered numbers.now (length numbers.now - 1)) (xor_u (rest_of (per * 128) image.old (numbered numbers.now) i (length numbers.now - 1)) unit.now) }
{
    let last = numbers.len() - 1;
    let at = numbers[last] * per;
    for q in 0..per {
        let mut block = rest(image, &numbers[..last], i, per, q);
        units::mix_out(&mut block, unit, q);
        units::store(image, at + q, &block);
    }
}

// Unit n of one row becomes the exclusive-or of the numbered units of another but unit i; with their count for i, of all of them.
pub fn gather(to: &mut [u8], n: usize, row: &[u8], numbers: &[usize], i: usize, per: usize)
    requires room { n * (per * 128) + per * 128 ≤ length to.old }
    requires within { Within (per * 128) (numbered numbers.now) (length numbers.now) (length row.now) }
    ensures { to.new ≡ put_unit (per * 128) to.old n (rest_of (per * 128) row.now (numbered numbers.now) i (length numbers.now)) }
{
    let at = n * per;
    for q in 0..per {
        let block = rest(row, numbers, i, per, q);
        units::store(to, at + q, &block);
    }
}

// Unit n of the image becomes the exclusive-or of the units of a lent buffer.
pub fn seal(image: &mut [u8], n: usize, buffer: &[u8], count: usize, per: usize)
    requires { (count ≤ 16) × (n * (per * 128) + per * 128 ≤ length image.old) × (count * (per * 128) ≡ length buffer.now) }
    ensures { image.new ≡ put_unit (per * 128) image.old n (xor_sum (per * 128) (unit_at (per * 128) buffer.now) count) }
{
    let numbers = IN_ORDER;
    gather(image, n, buffer, &numbers[..count], count, per);
}
