// The design: the sheet, the shelf value, and the rules of a balanced design (document 01, "The sheet").
#![tactic(auto)]

ghost use Rattle.std.specs.Prelude.{◌≡◌};
ghost use Rattle.design.specs.Refusals.{number, number_given};
ghost use Rattle.design.specs.Loss.{no_loss, disk_loss};
ghost use Rattle.design.specs.Sheet.{empty_shelf, opened, shelf_or_empty};
ghost use Rattle.design.specs.Shelf.{is_shelf, WroteBack};

mod back;
mod planes;
mod read;
mod reader;
mod rules;
mod tally;

// Why a call is refused: a variant for each row of document 01, "Numbers a caller can get".
#[derive(Clone, Copy, Debug, PartialEq, Eq)]
pub enum Refusal {
    ShortSheet,
    OtherEdition,
    OutsideLimits,
    OtherLength,
    DiskOutside,
    DiskTwice,
    FillingSet,
    DisksUneven,
    PairsUneven,
    NotAShelf,
    OtherImage,
    OutOfRange,
    OtherBuffer,
    SomeLost,
    NoneLost,
}

impl Refusal {
    // The number of document 01.
    #[tactic(auto, unfolding(crate::specs::Refusals::number))]
    pub fn number(self) -> usize
        ensures { result ≡ number self }
    {
        match self {
            Refusal::ShortSheet => 1,
            Refusal::OtherEdition => 2,
            Refusal::OutsideLimits => 3,
            Refusal::OtherLength => 4,
            Refusal::DiskOutside => 5,
            Refusal::DiskTwice => 6,
            Refusal::FillingSet => 7,
            Refusal::DisksUneven => 8,
            Refusal::PairsUneven => 9,
            Refusal::NotAShelf => 10,
            Refusal::OtherImage => 11,
            Refusal::OutOfRange => 12,
            Refusal::OtherBuffer => 13,
            Refusal::SomeLost => 14,
            Refusal::NoneLost => 15,
        }
    }
}

// 0, or the number of the refusal.
pub fn number_given<T>(answer: &Result<T, Refusal>) -> usize
    ensures { result ≡ number_given answer.now }
{
    match answer {
        Ok(_) => 0,
        Err(refusal) => refusal.number(),
    }
}

// What a shelf has lost: the one part of it that calls change.
#[derive(Clone, Copy)]
pub struct Loss {
    // The lost disk, if any.
    pub lost: Option<u8>,
}

impl Loss {
    // No disk is lost.
    pub fn none() -> Loss
        ensures { result ≡ no_loss }
    {
        Loss { lost: None }
    }

    // A disk is lost.
    pub fn of(disk: u8) -> Loss
        ensures { result ≡ disk_loss disk }
    {
        Loss { lost: Some(disk) }
    }
}

// The disk numbers of the tuples, one tuple after another.
pub type Table = [u8; Shelf::PLACES_MOST];

// A shelf value: the numbers of its sheet, what opening counted, the disk numbers tuple after tuple (zero past b·k),
// and what is lost.
#[derive(Clone, Copy)]
pub struct Shelf {
    pub v: usize,
    pub k: usize,
    pub b: usize,
    pub T: usize,
    pub u: usize,
    pub r: usize,
    pub lambda: usize,
    pub table: Table,
    pub loss: Loss,
}

impl Shelf {
    // The limits of document 01, "The sheet".
    pub const V_LEAST: usize = 2;

    pub const V_MOST: usize = 64;

    pub const K_LEAST: usize = 2;

    pub const K_MOST: usize = 16;

    pub const B_LEAST: usize = 1;

    pub const PLACES_MOST: usize = 2048;

    pub const T_LEAST: usize = 1;

    pub const T_MOST: usize = 65535;

    pub const U_MOST: usize = 12;

    // Every number zero, no disk lost.
    pub fn empty() -> Shelf
        ensures { result ≡ empty_shelf }
    {
        let loss = Loss::none();
        Shelf {
            v: 0,
            k: 0,
            b: 0,
            T: 0,
            u: 0,
            r: 0,
            lambda: 0,
            table: [0u8; Shelf::PLACES_MOST],
            loss,
        }
    }

    // Opens a sheet: the first rule that is broken, or the shelf.
    pub fn open(sheet: &[u8]) -> Result<Shelf, Refusal>
        ensures { result ≡ opened sheet.now }
    {
        read::open(sheet)
    }

    // The shelf that an answer of opening gives: the empty one, where it is refused.
    pub fn or_empty(opened: Result<Shelf, Refusal>) -> Shelf
        ensures { result ≡ shelf_or_empty opened }
    {
        opened.unwrap_or(Shelf::empty())
    }

    // Number 10: whether an accepted opening can give this value, a lost disk below v apart. It asks nothing of the
    // value, and no number of it is used before its limit is known.
    pub fn is_shelf(self) -> bool
        ensures { result ≡ is_shelf self }
    {
        rules::is_shelf(self)
    }

    // Writes the sheet into the first bytes of the buffer.
    pub fn write_back(self, buffer: &mut [u8]) -> Result<usize, Refusal>
        ensures { WroteBack self buffer.old result buffer.new }
    {
        back::write_back(self, buffer)
    }
}
