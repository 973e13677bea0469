ghost use Rattle.std.specs.Prelude.{◌≡◌};
ghost use Rattle.book.specs.Faults.{number_of};
ghost use Rattle.book.specs.declared.fault.BookFault.TheVariants.{Source};

use weights::WeightFault;

/// Why a book refuses a call.
#[derive(Clone, Copy, PartialEq, Eq, Debug)]
pub enum BookFault {
    /// A meter, an hour or an amount lies outside its limits.
    OutOfRange,
    /// The meter already has the hour.
    AlreadyBooked,
    /// The weight source refused.
    Source(WeightFault),
}

impl BookFault {
    /// The number that the caller is handed for this fault.
    pub fn number(&self) -> u8
        ensures { result ≡ number_of self.now }
    {
        // A match, since `as` takes no enum whose variants have fields.
        match self {
            BookFault::OutOfRange => 3,
            BookFault::AlreadyBooked => 5,
            BookFault::Source(below) => below.number(),
        }
    }
}

impl From<WeightFault> for BookFault {
    ghost from_gives = { λ fault r. r ≡ Source fault };

    fn from(fault: WeightFault) -> BookFault {
        BookFault::Source(fault)
    }
}
