// The faults of reading a month file. A fault carries the one below it whole, with its place.
ghost use Rattle.std.specs.Prelude.{◌≡◌, Ok, Err, MatchResult};
ghost use Rattle.monthfile.specs.Numbers.{number_of};
ghost use Rattle.monthfile.specs.declared.fault.ReadFault.TheVariants.{File, Plan, Memory};

use plan::PlanFault;
use std::alloc::AllocError;

#[derive(Clone, Copy, PartialEq, Eq, Debug)]
pub enum FileFault {
    // an unknown kind, or a spare bit set
    Malformed = 1,
    // a word that may not stand here
    OutOfOrder = 2,
    // a value outside the file's limits
    OutsideLimits = 3,
    // the file ends too early
    CutShort = 11,
}

impl FileFault {
    // The number that the caller is told.
    pub fn number(self) -> u8
        ensures { result ≡ number_of self }
    {
        self as u8
    }
}

// A fault with the number of the word, counted from 0, or after the end the count of whole words.
#[derive(Clone, Copy, PartialEq, Eq, Debug)]
pub struct Placed<F> {
    pub fault: F,
    pub place: u64,
}

// A fault by the layer that found it.
#[derive(Clone, Copy, PartialEq, Eq, Debug)]
pub enum ReadFault {
    File(Placed<FileFault>),
    Plan(Placed<PlanFault>),
    // no memory
    Memory,
}

impl From<Placed<FileFault>> for ReadFault {
    ghost from_gives = { λ placed r. r ≡ File placed };

    fn from(placed: Placed<FileFault>) -> ReadFault {
        ReadFault::File(placed)
    }
}

impl From<Placed<PlanFault>> for ReadFault {
    ghost from_gives = { λ placed r. r ≡ Plan placed };

    fn from(placed: Placed<PlanFault>) -> ReadFault {
        ReadFault::Plan(placed)
    }
}

impl From<AllocError> for ReadFault {
    ghost from_gives = { λ _ r. r ≡ Memory };

    fn from(_e: AllocError) -> ReadFault {
        ReadFault::Memory
    }
}

// The fault of an answer, with its place.
pub fn at_place<T, F>(answer: Result<T, F>, place: u64) -> Result<T, Placed<F>>
    ensures { MatchResult result (λ value. answer ≡ Ok value) (λ placed. (answer ≡ Err placed.fault) × (placed.place ≡ place)) }
{
    answer.map_err(|fault| Placed { fault, place })
}
