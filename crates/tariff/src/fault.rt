// Why a call of the tariff is refused.
ghost use Rattle.std.specs.Prelude.{◌≡◌};
ghost use Rattle.tariff.specs.Faults.{number_of};
ghost use Rattle.tariff.specs.declared.fault.TariffFault.TheVariants.{OutsideLimits};

use crate::service::UnknownService;

#[derive(Clone, Copy, PartialEq, Eq, Debug)]
pub enum TariffFault {
    // a value outside its limits, or a service that the period does not allow
    OutsideLimits = 3,
}

impl TariffFault {
    // The number that the caller is told.
    pub fn number(self) -> u8
        ensures { result ≡ number_of self }
    {
        self as u8
    }
}

impl From<UnknownService> for TariffFault {
    ghost from_gives = { λ _ r. r ≡ OutsideLimits };

    fn from(_unknown: UnknownService) -> TariffFault {
        TariffFault::OutsideLimits
    }
}
