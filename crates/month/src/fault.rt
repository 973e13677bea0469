ghost use Rattle.std.specs.Prelude.{◌≡◌};
ghost use Rattle.month.specs.Faults.{number_of, opening_number_of};
ghost use Rattle.month.specs.declared.fault.BookingFault.TheVariants.{Refused};
ghost use Rattle.month.specs.declared.fault.OpeningFault.TheVariants.{Peak};

use book::BookFault;

/// Why a booking or a question is refused.
#[derive(Clone, Copy, PartialEq, Eq, Debug)]
pub enum BookingFault {
    /// The segment, the meter, the hour or the amount lies outside its limits.
    OutOfRange,
    /// The plan does not assign the meter.
    Unassigned,
    /// The segment's book refused.
    Refused(BookFault),
}

impl BookingFault {
    /// The number that the caller is handed for this fault.
    pub fn number(&self) -> u8
        ensures { result ≡ number_of self.now }
    {
        // A match, since `as` takes no enum whose variants have fields.
        match self {
            BookingFault::OutOfRange => 3,
            BookingFault::Unassigned => 4,
            BookingFault::Refused(below) => below.number(),
        }
    }
}

impl From<BookFault> for BookingFault {
    ghost from_gives = { λ fault r. r ≡ Refused fault };

    fn from(fault: BookFault) -> BookingFault {
        BookingFault::Refused(fault)
    }
}

/// Why a month is not opened.
#[derive(Clone, Copy, PartialEq, Eq, Debug)]
pub enum OpeningFault {
    /// The plan has not all its segments.
    NotFull,
    /// The first segment's book refused a carried peak.
    Peak(BookFault),
    /// No memory for the books.
    Memory,
}

impl OpeningFault {
    /// The number that the caller is handed for this fault, if it has one.
    pub fn number(&self) -> Option<u8>
        ensures { result ≡ opening_number_of self.now }
    {
        // A match, since `as` takes no enum whose variants have fields.
        match self {
            OpeningFault::NotFull => Some(2),
            OpeningFault::Peak(below) => Some(below.number()),
            OpeningFault::Memory => None,
        }
    }
}

impl From<BookFault> for OpeningFault {
    ghost from_gives = { λ fault r. r ≡ Peak fault };

    fn from(fault: BookFault) -> OpeningFault {
        OpeningFault::Peak(fault)
    }
}
