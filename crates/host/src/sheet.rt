// Opening a sheet and writing it back.
ghost use Rattle.host.specs.Sheets.{HostOpened, HostWroteBack};

use crate::{OTHER_BUFFER, value};
use design::Shelf;

// Opens a sheet; an accepted one fills the 2,080 bytes of a shelf value.
#[unsafe(no_mangle)]
#[tactic(auto, unfolding(crate::specs::Value::shelf_into))]
pub extern "C" fn shqemtuli_open(sheet: &[u8], out: &mut [u8]) -> usize
    ensures { HostOpened sheet.now out.old result out.new }
{
    if out.len() != value::SIZE {
        return OTHER_BUFFER;
    }
    match Shelf::open(sheet) {
        Ok(shelf) => {
            value::put(out, shelf);
            0
        }
        Err(refusal) => refusal.number(),
    }
}

// Writes the sheet into the first bytes of the buffer. Its length is `shqemtuli_sheet_length`.
#[unsafe(no_mangle)]
pub extern "C" fn shqemtuli_write_back(shelf: &[u8], buffer: &mut [u8]) -> usize
    ensures { HostWroteBack shelf.now buffer.old result buffer.new }
{
    design::number_given(&value::shelf(shelf).write_back(buffer))
}
