// Opening a sheet: its rules one after another, each over the whole sheet (document 01, "Numbers a caller can get").
ghost use Rattle.std.specs.Prelude.{◌≡◌, ◌+◌, ◌*◌, ◌≤◌, length};
ghost use Rattle.design.specs.Sheet.{sheet_length, filling_zero, table_of, opened, HeaderRead};

use crate::reader::Header;
use crate::{Loss, Refusal, Shelf, Table, planes, reader, rules, tally};

// The length of a sheet of n disk numbers.
pub fn sheet_length(n: usize) -> usize
    requires { n ≤ 2048 }
    ensures { result ≡ sheet_length n }
{
    6 + (6 * n + 7) / 8
}

// Rule 7: the bits past the last of n disk numbers.
fn filling_zero(sheet: &[u8], n: usize) -> bool
    requires { (n ≤ 2048) × (length sheet.now ≡ sheet_length n) }
    ensures { result ≡ filling_zero sheet.now n }
{
    let at = 48 + 6 * n;
    let width = 8 * sheet.len() - at;
    width == 0 || reader::number(sheet, at, width) == 0
}

// The table: n disk numbers, and zero past them.
fn table_of(sheet: &[u8], n: usize) -> Table
    requires { (n ≤ 2048) × (length sheet.now ≡ sheet_length n) }
    ensures { result ≡ table_of sheet.now n }
{
    let mut table = [0; Shelf::PLACES_MOST];
    for (i, entry) in table[..n].iter_mut().enumerate() {
        *entry = reader::number(sheet, 48 + 6 * i, 6) as u8;
    }
    table
}

// Rules 5 to 9, of a sheet that keeps rules 1 to 4.
fn open_table(sheet: &[u8], header: Header) -> Result<Shelf, Refusal>
    requires { HeaderRead sheet.now header.v header.k header.b header.T header.u }
    ensures { result ≡ opened sheet.now }
{
    let n = header.b * header.k;
    let table = table_of(sheet, n);
    let disks = &table[..n];
    if !rules::disks_below(disks, header.v) {
        return Err(Refusal::DiskOutside);
    }
    if !rules::none_twice(disks, header.k) {
        return Err(Refusal::DiskTwice);
    }
    if !filling_zero(sheet, n) {
        return Err(Refusal::FillingSet);
    }
    let counts = tally::tally(disks, header.k);
    let r = planes::count_of(&counts[0], 0);
    if !tally::disks_even(&counts, header.v, r) {
        return Err(Refusal::DisksUneven);
    }
    let lambda = planes::count_of(&counts[1], 0);
    if !tally::pairs_even(&counts, header.v, lambda) {
        return Err(Refusal::PairsUneven);
    }
    let shelf = Shelf {
        v: header.v,
        k: header.k,
        b: header.b,
        T: header.T,
        u: header.u,
        r,
        lambda,
        table,
        loss: Loss::none(),
    };
    Ok(shelf)
}

pub fn open(sheet: &[u8]) -> Result<Shelf, Refusal>
    ensures { result ≡ opened sheet.now }
{
    if sheet.len() < 6 {
        return Err(Refusal::ShortSheet);
    }
    let header = reader::read_header(sheet);
    if header.edition != 1 {
        return Err(Refusal::OtherEdition);
    }
    if !rules::within_limits(header.v, header.k, header.b, header.T, header.u) {
        return Err(Refusal::OutsideLimits);
    }
    if sheet.len() != sheet_length(header.b * header.k) {
        return Err(Refusal::OtherLength);
    }
    open_table(sheet, header)
}
