// Refusals by number and place: one of the reader's made from them, and any told by them.
#![tactic(auto)]

ghost use Rattle.std.specs.Prelude.{◌≡◌, true, ℕ, Some, None};
ghost use Rattle.std.proofs.Math.Option.{some};
ghost use Rattle.model.specs.Outcome.{refused};
ghost use Rattle.model.specs.Refusals.{refusal_of, reader_number};
ghost use Rattle.refusals.specs.Faults.{number};
ghost use Rattle.refusals.specs.Told.{place_of};

use model::Refusal;

// What the reader refuses a text for.
#[derive(Clone, Copy, PartialEq, Eq)]
pub enum Fault {
    WrongToken = 2,
    WrongNumber,
    WrongName,
    NotDeclared,
    TooMany,
    WrongPosition,
    Unpaired,
    PartMissing,
}

impl Fault {
    pub fn number(self) -> u8
        ensures { result ≡ number self }
    {
        self as u8
    }

    // The fault of a reader's number.
    pub fn of(why: u8) -> Fault
        requires { reader_number why ≡ true }
        ensures { number result ≡ why }
    {
        match why {
            2 => Fault::WrongToken,
            3 => Fault::WrongNumber,
            4 => Fault::WrongName,
            5 => Fault::NotDeclared,
            6 => Fault::TooMany,
            7 => Fault::WrongPosition,
            8 => Fault::Unpaired,
            _ => Fault::PartMissing,
        }
    }
}

// The refusal for a fault at this place.
pub fn refusal_of(fault: Fault, place: usize) -> Refusal
    ensures { refusal_of {A = ℕ} result ≡ refused (number fault) (some place) }
{
    match fault {
        Fault::WrongToken => Refusal::WrongToken(place),
        Fault::WrongNumber => Refusal::WrongNumber(place),
        Fault::WrongName => Refusal::WrongName(place),
        Fault::NotDeclared => Refusal::NotDeclared(place),
        Fault::TooMany => Refusal::TooMany(place),
        Fault::WrongPosition => Refusal::WrongPosition(place),
        Fault::Unpaired => Refusal::Unpaired(place),
        Fault::PartMissing => Refusal::PartMissing(place),
    }
}

// The number of a refusal, and its place if it has one.
#[derive(Clone, Copy)]
pub struct Told {
    pub number: u8,
    pub place: Option<usize>,
}

fn at(number: u8, place: usize) -> Told
    ensures { (result.number ≡ number) × (result.place ≡ Some place) }
{
    Told {
        number,
        place: Some(place),
    }
}

fn nowhere(number: u8) -> Told
    ensures { (result.number ≡ number) × (result.place ≡ None) }
{
    Told {
        number,
        place: None,
    }
}

pub fn number_and_place(r: Refusal) -> Told
    ensures { refusal_of {A = ℕ} r ≡ refused result.number (place_of result.place) }
{
    match r {
        Refusal::TextTooLong => at(1, 0),
        Refusal::WrongToken(place) => at(2, place),
        Refusal::WrongNumber(place) => at(3, place),
        Refusal::WrongName(place) => at(4, place),
        Refusal::NotDeclared(place) => at(5, place),
        Refusal::TooMany(place) => at(6, place),
        Refusal::WrongPosition(place) => at(7, place),
        Refusal::Unpaired(place) => at(8, place),
        Refusal::PartMissing(place) => at(9, place),
        Refusal::BufferTooShort(needed) => at(10, needed),
        Refusal::ImageNotAccepted => nowhere(11),
        Refusal::WrongCount => nowhere(12),
        Refusal::WrongHeld => nowhere(13),
        Refusal::WrongReading(index) => at(14, index),
        Refusal::TextOver => nowhere(16),
    }
}
