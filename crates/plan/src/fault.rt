// Why a call on a plan is refused.
ghost use Rattle.std.specs.Prelude.{◌≡◌};
ghost use Rattle.plan.specs.Faults.{Checked, first_fault, number_of};
ghost use Rattle.plan.specs.declared.fault.PlanFault.TheVariants.{OutsideLimits, Memory};

use std::alloc::AllocFailed;
use tariff::TariffFault;

#[derive(Clone, Copy, PartialEq, Eq, Debug)]
pub enum PlanFault {
    // a call that does not come in its turn, or an entry that is not above the last
    OutOfOrder,
    // a value outside its limits, or a service that the period does not allow
    OutsideLimits,
    // a peak of a meter that the plan does not assign
    Unassigned,
    // no memory for one more entry
    Memory,
}

impl PlanFault {
    // The number that the caller is told, if the fault has one. Discriminants cannot say it, as want of memory has none.
    pub fn number(self) -> Option<u8>
        ensures { result ≡ number_of self }
    {
        match self {
            PlanFault::OutOfOrder => Some(2),
            PlanFault::OutsideLimits => Some(3),
            PlanFault::Unassigned => Some(4),
            PlanFault::Memory => None,
        }
    }
}

// The first check that fails gives the answer. One function of three answers, as `first_fault` is: guards in each caller
// would write the order of the checks again.
pub(crate) fn judge(ordered: bool, within: bool, assigned: bool) -> Result<(), PlanFault>
    ensures { Checked (first_fault ordered within assigned) result }
{
    if !ordered {
        return Err(PlanFault::OutOfOrder);
    }
    if !within {
        return Err(PlanFault::OutsideLimits);
    }
    if !assigned {
        return Err(PlanFault::Unassigned);
    }
    Ok(())
}

impl From<TariffFault> for PlanFault {
    ghost from_gives = { λ _ r. r ≡ OutsideLimits };

    fn from(fault: TariffFault) -> PlanFault {
        match fault {
            TariffFault::OutsideLimits => PlanFault::OutsideLimits,
        }
    }
}

impl<T: Drop> From<AllocFailed<T>> for PlanFault {
    ghost from_gives = { λ _ r. r ≡ Memory };

    fn from(_refused: AllocFailed<T>) -> PlanFault {
        PlanFault::Memory
    }
}
