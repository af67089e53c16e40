// Numbers in lent bytes: four bytes each, the most significant first.
ghost use Rattle.std.specs.Prelude.{◌≡◌, ◌+◌, ◌*◌, ◌≤◌, length};
ghost use Rattle.host.specs.Numbers.{number_at, with_number, numbered};

// The bytes of a number.
pub const SIZE: usize = 4;

// Number i.
#[tactic(auto, unfolding(crate::specs::Numbers::number_at))]
pub fn get(bytes: &[u8], i: usize) -> usize
    requires { 4 * i + 4 ≤ length bytes.now }
    ensures { result ≡ number_at bytes.now i }
{
    let at = SIZE * i;
    u32::from_be_bytes([bytes[at], bytes[at + 1], bytes[at + 2], bytes[at + 3]]) as usize
}

// Of a larger number the low bytes are put.
fn put(bytes: &mut [u8], i: usize, x: usize)
    requires { 4 * i + 4 ≤ length bytes.old }
    ensures { bytes.new ≡ with_number bytes.old i x }
{
    let at = SIZE * i;
    bytes[at..at + SIZE].copy_from_slice(&x.to_be_bytes()[SIZE..]);
}

// Puts the numbers of a list one after another, from number `from` on.
pub fn put_all(bytes: &mut [u8], from: usize, list: &[usize])
    requires { 4 * (from + length list.now) ≤ length bytes.old }
    ensures { bytes.new ≡ numbered bytes.old from list.now }
{
    for (i, x) in list.iter().enumerate() {
        put(bytes, from + i, *x);
    }
}
