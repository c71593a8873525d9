// Faults: what every call of the product answers when it refuses.
//
// `Fault` has a case for each cause, with a number and a place; its `Display` is the line by which a program tells it.
#![tactic(auto)]

ghost use Rattle.std.specs.Prelude.{◌≡◌, Some};
ghost use Rattle.faults.specs.declared.Fault.TheVariants.{OutOfMemory};
ghost use Rattle.faults.specs.Faults.{number_of, maker_number, place_of, line_of};

use std::alloc::{AllocError, AllocFailed};
use std::error::Error;
use std::fmt;

// The first cause that a call met, with its place.
#[derive(Clone, Copy, PartialEq, Eq, Debug)]
pub enum Fault {
    // positions of a command's first byte
    UnknownCommand(usize),
    CutShort(usize),
    OutOfOrder(usize),
    TooMany(usize),
    OutOfRange(usize),
    NamesNothing(usize),
    // the number of a price list's `Maker`, and its first faulty row
    FaultyList(u8, u8),
    // a call's operand, counted from 0
    CallOutOfRange(usize),
    AlreadyThere(usize),
    NotThere(usize),
    // the lowest operation that the unit serves
    StillServing(usize),
    // a call's operand again
    TooNarrow(usize),
    // the finish
    TooLate(usize),
    // the lowest operation that is read too early or reads too early, or that has the unit
    NotReady(usize),
    UnitBusy(usize),
    // the lowest register with two values at once
    RegisterBusy(usize),
    // the lowest operation that the limit leaves no step to start at
    NoTime(usize),
    // the length needed
    BufferTooShort(usize),
    // the count wanted
    SampleCount(usize),
    // the machine's own refusal: no rule of the product is broken
    OutOfMemory,
}

// What makes a price list.
#[derive(Clone, Copy, PartialEq, Eq, Debug)]
pub enum Maker {
    Formula,
    Table,
    Grain,
    Wait,
}

// Where a fault lies: one number, or a maker's number and a row for a faulty price list.
#[derive(Clone, Copy, PartialEq, Eq, Debug)]
pub enum Place {
    At(usize),
    Row(u8, u8),
}

impl Fault {
    pub fn number(&self) -> u8
        ensures { result ≡ number_of self.now }
    {
        match self {
            Fault::OutOfMemory => 0,
            Fault::UnknownCommand(_) => 1,
            Fault::CutShort(_) => 2,
            Fault::OutOfOrder(_) => 3,
            Fault::TooMany(_) => 4,
            Fault::OutOfRange(_) => 5,
            Fault::NamesNothing(_) => 6,
            Fault::FaultyList(_, _) => 7,
            Fault::CallOutOfRange(_) => 8,
            Fault::AlreadyThere(_) => 9,
            Fault::NotThere(_) => 10,
            Fault::StillServing(_) => 11,
            Fault::TooNarrow(_) => 12,
            Fault::TooLate(_) => 13,
            Fault::NotReady(_) => 14,
            Fault::UnitBusy(_) => 15,
            Fault::RegisterBusy(_) => 16,
            Fault::NoTime(_) => 18,
            Fault::BufferTooShort(_) => 19,
            Fault::SampleCount(_) => 21,
        }
    }

    pub fn place(&self) -> Place
        ensures { result ≡ place_of self.now }
    {
        match *self {
            Fault::UnknownCommand(at)
            | Fault::CutShort(at)
            | Fault::OutOfOrder(at)
            | Fault::TooMany(at)
            | Fault::OutOfRange(at)
            | Fault::NamesNothing(at)
            | Fault::CallOutOfRange(at)
            | Fault::AlreadyThere(at)
            | Fault::NotThere(at)
            | Fault::StillServing(at)
            | Fault::TooNarrow(at)
            | Fault::TooLate(at)
            | Fault::NotReady(at)
            | Fault::UnitBusy(at)
            | Fault::RegisterBusy(at)
            | Fault::NoTime(at)
            | Fault::BufferTooShort(at)
            | Fault::SampleCount(at) => Place::At(at),
            Fault::FaultyList(maker, row) => Place::Row(maker, row),
            Fault::OutOfMemory => Place::At(0),
        }
    }
}

impl From<Maker> for u8 {
    ghost from_gives = { λ maker number. number ≡ maker_number maker };

    fn from(maker: Maker) -> u8 {
        match maker {
            Maker::Formula => 0,
            Maker::Table => 1,
            Maker::Grain => 2,
            Maker::Wait => 3,
        }
    }
}

// By hand, as the conversions below: so the contracts say what is written, and what `?` makes.
impl fmt::Display for Fault {
    ghost output = { λ f. Some (line_of f) };

    fn fmt<W: fmt::Write>(&self, f: &mut fmt::Formatter<W>) -> fmt::Result {
        let number = self.number();
        match self.place() {
            Place::At(place) => write!(f, "refused {number} {place}"),
            Place::Row(maker, row) => write!(f, "refused {number} {maker} {row}"),
        }
    }
}

impl Error for Fault {}

impl From<AllocError> for Fault {
    ghost from_gives = { λ _ r. r ≡ OutOfMemory };

    fn from(_e: AllocError) -> Fault {
        Fault::OutOfMemory
    }
}

impl<T: Drop> From<AllocFailed<T>> for Fault {
    ghost from_gives = { λ _ r. r ≡ OutOfMemory };

    fn from(_e: AllocFailed<T>) -> Fault {
        Fault::OutOfMemory
    }
}
