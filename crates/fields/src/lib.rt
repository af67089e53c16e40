// Bit fields of a byte slice, most significant bit first (document 01, "The sheet").
#![tactic(auto)]

ghost use Rattle.std.specs.Prelude.{◌≡◌, ◌+◌, ◌-◌, ◌*◌, ◌/◌, ◌%◌, ◌^◌, ◌<◌};
ghost use Rattle.fields.specs.Field.{is_field, found, Wrote};

// No such field: its width is not 1 to 32, it is not wholly inside the bytes, or it is too narrow for the value.
#[derive(Clone, Copy, Debug, PartialEq, Eq)]
pub struct NoField;

// Whether the bytes have such a field. Neither the number of all bits nor the field's end need fit a `usize`, so its bytes
// are counted from the one in which it starts.
fn is_field(bytes: &[u8], at: usize, width: usize) -> bool
    ensures { result ≡ is_field bytes.now at width }
{
    if width < 1 {
        return false;
    }
    if width > 32 {
        return false;
    }
    at / 8 + (at % 8 + width + 7) / 8 <= bytes.len()
}

// Bit `place` of a byte, 0 being the most significant.
fn bit_of(byte: u8, place: usize) -> usize
    requires { place < 8 }
    ensures { result ≡ byte / 2 ^ (7 - place) % 2 }
{
    (byte as usize >> (7 - place)) % 2
}

// What that bit adds to the byte.
fn weight_of(place: usize) -> usize
    requires { place < 8 }
    ensures { result ≡ 2 ^ (7 - place) }
{
    128 >> place
}

// The byte with `y` for that bit.
fn with_bit(byte: u8, place: usize, y: usize) -> u8
    requires { (place < 8) × (y < 2) }
    ensures { result ≡ byte - byte / 2 ^ (7 - place) % 2 * 2 ^ (7 - place) + y * 2 ^ (7 - place) }
{
    let weight = weight_of(place);
    (byte as usize - bit_of(byte, place) * weight + y * weight) as u8
}

// Reads the field of `width` bits from bit `at` on, bit by bit: no slice has them.
pub fn read(bytes: &[u8], at: usize, width: usize) -> Option<usize>
    ensures { result ≡ found bytes.now at width }
{
    if !is_field(bytes, at, width) {
        return None;
    }
    let mut value: usize = 0;
    for i in 0..width {
        let bit = at % 8 + i;
        value = value * 2 + bit_of(bytes[at / 8 + bit / 8], bit % 8);
    }
    Some(value)
}

// Writes `value` into the field of `width` bits from bit `at` on, likewise.
pub fn write(bytes: &mut [u8], at: usize, width: usize, value: usize) -> Result<(), NoField>
    ensures { Wrote bytes.old at width value result bytes.new }
{
    if !is_field(bytes, at, width) {
        return Err(NoField);
    }
    if value >> width > 0 {
        return Err(NoField);
    }
    for done in 0..width {
        let bit = at % 8 + done;
        let byte = at / 8 + bit / 8;
        bytes[byte] = with_bit(bytes[byte], bit % 8, (value >> (width - 1 - done)) % 2);
    }
    Ok(())
}
