// Writing a shelf back: its sheet, in the first bytes of a lent buffer.
ghost use Rattle.std.specs.Prelude.{◌≡◌, true, ◌*◌, ◌^◌, ◌≤◌, ◌<◌, length, All};
ghost use Rattle.fields.specs.Field.{is_field, with_field};
ghost use Rattle.design.specs.Sheet.{sheet_length};
ghost use Rattle.design.specs.Shelf.{is_shelf, packed, header_in, numbers_in, sheet_in, WroteBack};

use crate::{Refusal, Shelf, read, rules};

// Puts a value into a field that can hold it.
fn put(sheet: &mut [u8], at: usize, width: usize, value: usize)
    requires { (is_field sheet.old at width ≡ true) × (value < 2 ^ width) }
    ensures { sheet.new ≡ with_field sheet.old at width value }
{
    fields::write(sheet, at, width, value).unwrap();
}

fn write_header(shelf: Shelf, sheet: &mut [u8])
    requires { (is_shelf shelf ≡ true) × (6 ≤ length sheet.old) }
    ensures { sheet.new ≡ packed sheet.old 0 (header_in shelf) }
{
    put(sheet, 0, 4, 1);
    put(sheet, 4, 7, shelf.v);
    put(sheet, 11, 5, shelf.k);
    put(sheet, 16, 12, shelf.b);
    put(sheet, 28, 16, shelf.T);
    put(sheet, 44, 4, shelf.u);
}

// The disk numbers, from bit 48 on.
fn write_numbers(disks: &[u8], sheet: &mut [u8])
    requires room { (length disks.now ≤ 2048) × (length sheet.old ≡ sheet_length (length disks.now)) }
    requires below { All (λ d. d < 64) disks.now }
    ensures { sheet.new ≡ packed sheet.old 48 (numbers_in disks.now) }
{
    for (i, disk) in disks.iter().enumerate() {
        put(sheet, 48 + 6 * i, 6, usize::from(*disk));
    }
}

fn write_sheet(shelf: Shelf, sheet: &mut [u8])
    requires { (is_shelf shelf ≡ true) × (length sheet.old ≡ sheet_length (shelf.b * shelf.k)) }
    ensures { sheet.new ≡ sheet_in shelf }
{
    sheet.fill(0);
    write_header(shelf, sheet);
    write_numbers(&shelf.table[..shelf.b * shelf.k], sheet);
}

pub fn write_back(shelf: Shelf, buffer: &mut [u8]) -> Result<usize, Refusal>
    ensures { WroteBack shelf buffer.old result buffer.new }
{
    if !rules::is_shelf(shelf) {
        return Err(Refusal::NotAShelf);
    }
    let length = read::sheet_length(shelf.b * shelf.k);
    if buffer.len() < length {
        return Err(Refusal::OtherBuffer);
    }
    write_sheet(shelf, &mut buffer[..length]);
    Ok(length)
}
