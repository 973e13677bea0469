// Why a request is not answered with figures.
ghost use Rattle.std.specs.Prelude.{◌≡◌};
ghost use Rattle.tariff.specs.declared.fault.TariffFault.TheVariants.{OutsideLimits};
ghost use Rattle.calculator.specs.Faults.{number_of, of_plan, refusal_line};
ghost use Rattle.calculator.specs.declared.fault.RequestFault.TheVariants.{BadUsage, Cut, Tariff, Memory};

use apportion::CutFault;
use plan::PlanFault;
use std::alloc::{AllocError, AllocFailed};
use std::fmt;
use std::num::{ParseIntError, TryFromIntError};
use tariff::TariffFault;

#[derive(Clone, Copy, PartialEq, Eq, Debug)]
pub enum RequestFault {
    // the words make no request
    BadUsage,
    Cut(CutFault),
    Plan(PlanFault),
    Tariff(TariffFault),
    // no memory for the reply
    Memory,
}

impl RequestFault {
    // The number of the refusal, if the fault is one. A match, since the cases hold faults that have the numbers.
    pub fn number(self) -> Option<u8>
        ensures { result ≡ number_of self }
    {
        match self {
            RequestFault::Cut(fault) => Some(fault.number()),
            RequestFault::Plan(fault) => fault.number(),
            RequestFault::Tariff(fault) => Some(fault.number()),
            RequestFault::BadUsage | RequestFault::Memory => None,
        }
    }
}

// The line of a refusal. The other faults have none that is printed.
impl fmt::Display for RequestFault {
    ghost output = { refusal_line };

    fn fmt<W: fmt::Write>(&self, f: &mut fmt::Formatter<W>) -> fmt::Result {
        match self.number() {
            Some(number) => write!(f, "REFUSED {number}"),
            None => write!(f, "not answered"),
        }
    }
}

impl From<CutFault> for RequestFault {
    ghost from_gives = { λ fault r. r ≡ Cut fault };

    fn from(fault: CutFault) -> RequestFault {
        RequestFault::Cut(fault)
    }
}

impl From<PlanFault> for RequestFault {
    ghost from_gives = { λ fault r. r ≡ of_plan fault };

    fn from(fault: PlanFault) -> RequestFault {
        match fault {
            PlanFault::Memory => RequestFault::Memory,
            _ => RequestFault::Plan(fault),
        }
    }
}

impl From<TariffFault> for RequestFault {
    ghost from_gives = { λ fault r. r ≡ Tariff fault };

    fn from(fault: TariffFault) -> RequestFault {
        RequestFault::Tariff(fault)
    }
}

// A word that writes no number makes no request.
impl From<ParseIntError> for RequestFault {
    ghost from_gives = { λ _ r. r ≡ BadUsage };

    fn from(_refused: ParseIntError) -> RequestFault {
        RequestFault::BadUsage
    }
}

// A number that 32 bits do not hold is outside the limits of period, service, tariff and factor.
impl From<TryFromIntError> for RequestFault {
    ghost from_gives = { λ _ r. r ≡ Tariff OutsideLimits };

    fn from(_wide: TryFromIntError) -> RequestFault {
        RequestFault::Tariff(TariffFault::OutsideLimits)
    }
}

impl From<AllocError> for RequestFault {
    ghost from_gives = { λ _ r. r ≡ Memory };

    fn from(_refused: AllocError) -> RequestFault {
        RequestFault::Memory
    }
}

impl<T: Drop> From<AllocFailed<T>> for RequestFault {
    ghost from_gives = { λ _ r. r ≡ Memory };

    fn from(_refused: AllocFailed<T>) -> RequestFault {
        RequestFault::Memory
    }
}
