// The bytes of a unit.
ghost use Rattle.std.specs.Prelude.{◌≡◌, length};
ghost use Rattle.parity.specs.Units.{xor_u, is_zero};

// Copies one unit into another. The library's `copy_from_slice` would have every program that links the archive for C bring `memmove`.
pub fn copy(to: &mut [u8], from: &[u8])
    requires { length to.old ≡ length from.now }
    ensures { to.new ≡ from.now }
{
    for (i, x) in to.iter_mut().enumerate() {
        *x = from[i];
    }
}

// Mixes one unit into another: the exclusive-or of the two.
pub fn mix(to: &mut [u8], from: &[u8])
    requires { length to.old ≡ length from.now }
    ensures { to.new ≡ xor_u to.old from.now }
{
    for (i, x) in to.iter_mut().enumerate() {
        *x ^= from[i];
    }
}

// Whether all bytes are zero. They are joined with no way out of the fold, which the back end turns into vectors.
pub fn is_zero(bytes: &[u8]) -> bool
    ensures { result ≡ is_zero bytes.now }
{
    bytes.iter().fold(0, |any, x| any | x) == 0
}
