// Why a call is refused: one case for each line of the table of refusals, with the place that it reports.
#![tactic(auto)]

ghost use Rattle.std.specs.Prelude.{◌≡◌, Some};
ghost use Rattle.refusals.specs.Paper.{number_of, place_of, text_of};

use std::error::Error;
use std::fmt;

#[derive(Clone, Copy, Debug, PartialEq, Eq)]
pub enum Refusal {
    Sizes,
    BadObject(u32),
    StrayMark(u32),
    LostRoot(u32),
    LostField(u32),
    OrderBreaks(u32),
    NoSlot(u32),
    OtherKind(u32),
    NoField(u32),
    OutOfRange,
    NoRoom,
    TooLong,
    NoObject(u32),
    BadImage,
}

// By a number and a place, and not by `From`, since a refusal stands for the two together.
impl Refusal {
    pub fn number(self) -> u32
        ensures { result ≡ number_of self }
    {
        match self {
            Refusal::Sizes => 1,
            Refusal::BadObject(_) => 2,
            Refusal::StrayMark(_) => 3,
            Refusal::LostRoot(_) => 4,
            Refusal::LostField(_) => 5,
            Refusal::OrderBreaks(_) => 6,
            Refusal::NoSlot(_) => 7,
            Refusal::OtherKind(_) => 8,
            Refusal::NoField(_) => 9,
            Refusal::OutOfRange => 10,
            Refusal::NoRoom => 11,
            Refusal::TooLong => 12,
            Refusal::NoObject(_) => 13,
            Refusal::BadImage => 14,
        }
    }

    // The place, slot, position or field reported; 0 where there is none.
    pub fn place(self) -> u32
        ensures { result ≡ place_of self }
    {
        match self {
            Refusal::BadObject(place) | Refusal::StrayMark(place) | Refusal::LostField(place) =>
                place,
            Refusal::LostRoot(slot)
            | Refusal::NoSlot(slot)
            | Refusal::OtherKind(slot)
            | Refusal::NoObject(slot) => slot,
            Refusal::OrderBreaks(position) => position,
            Refusal::NoField(field) => field,
            _ => 0,
        }
    }
}

impl fmt::Display for Refusal {
    ghost output = { λ e. Some (text_of e) };

    fn fmt<W: fmt::Write>(&self, f: &mut fmt::Formatter<W>) -> fmt::Result {
        let number = self.number();
        let place = self.place();
        write!(f, "refused {number} at {place}")
    }
}

impl Error for Refusal {}
