// The text of a layout (document 01, "The layout program"): its first line and the lines of its stripes, into lent buffers. A
// layout of many stripes is printed part by part, each part with one test of the shelf and one pass over its table.
#![tactic(auto)]

ghost use Rattle.std.specs.Prelude.{◌≡◌, ◌*◌, ◌<◌, ◌≤◌, length, MatchResult};
ghost use Rattle.design.specs.declared.Refusal.TheVariants.{OtherBuffer};
ghost use Rattle.placement.specs.Layout.{layout_in};
ghost use Rattle.layout.specs.Text.{first_line, lines_from, refused_line};
ghost use Rattle.layout.specs.Calls.{line_room, started, Written, refused_rules, first_rules, lines_rules};

use crate::write::Rows;
use design::{Refusal, Shelf};
use placement::Checked;

mod pen;
mod write;

// The bytes that a buffer must have for each line: no line is longer.
pub const LINE_ROOM: usize = 256;

// An opened sheet: its shelf and its stripes.
#[derive(Clone, Copy)]
pub struct Start {
    pub shelf: Shelf,
    pub stripes: usize,
}

// Opens a sheet. A refusal is passed on with its number, by let else: document 01 names this form.
pub fn open(sheet: &[u8]) -> Result<Start, usize>
    ensures { result ≡ started sheet.now }
{
    let opened = Shelf::open(sheet);
    let Ok(shelf) = opened else {
        return Err(design::number_given(&opened));
    };
    let stripes = Checked { shelf: &shelf }.stripes();
    Ok(Start { shelf, stripes })
}

// Refuses a buffer with no room for n lines. The bytes that they need may not fit a `usize`.
fn room_for(n: usize, buffer: &[u8]) -> Result<(), Refusal>
    ensures { MatchResult result (λ _. n * line_room ≤ length buffer.now) (λ refusal. (refusal ≡ OtherBuffer) × (length buffer.now < n * line_room)) }
{
    if buffer.len() / LINE_ROOM < n {
        return Err(Refusal::OtherBuffer);
    }
    Ok(())
}

// Writes the line of a refused sheet.
pub fn refused_line(number: usize, buffer: &mut [u8]) -> Result<usize, Refusal>
    ensures { Written (refused_rules buffer.old) (refused_line number) buffer.old result buffer.new }
{
    room_for(1, buffer)?;
    Ok(write::refused(buffer, number))
}

// Writes the first line.
pub fn first_line(shelf: Shelf, buffer: &mut [u8]) -> Result<usize, Refusal>
    ensures { Written (first_rules shelf buffer.old) (first_line shelf) buffer.old result buffer.new }
{
    let checked = Checked::of(&shelf)?;
    room_for(1, buffer)?;
    Ok(write::first(buffer, checked))
}

// Writes the lines of n stripes, from stripe `first` on. The sum of `first` and n may not fit, so n is held against what is
// left.
pub fn lines(shelf: Shelf, first: usize, n: usize, buffer: &mut [u8]) -> Result<usize, Refusal>
    ensures { Written (lines_rules shelf first n buffer.old) (lines_from (layout_in shelf) first n) buffer.old result buffer.new }
{
    let checked = Checked::of(&shelf)?;
    let stripes = checked.stripes();
    if stripes < first {
        return Err(Refusal::OutOfRange);
    }
    if stripes - first < n {
        return Err(Refusal::OutOfRange);
    }
    room_for(n, buffer)?;
    let rows = Rows::of(checked);
    Ok(rows.lines(buffer, first, n))
}
