// The fee of a capacity, through the calls that the month uses.
ghost use Rattle.calculator.specs.Faults.{Figures};

use crate::fault::RequestFault;
use plan::{AMR, Plan};
use std::alloc::Global;
use tariff::fee;

// The period, the terms and the capacity that a fee is asked for.
#[derive(Clone, Copy)]
pub(crate) struct FeeRequest {
    pub(crate) year: u32,
    pub(crate) month: u32,
    pub(crate) hours: u32,
    pub(crate) service: u32,
    pub(crate) tariff: u32,
    pub(crate) capacity: u64,
}

impl FeeRequest {
    ghost use Rattle.calculator.specs.FeeRequests.{asked_period, fee_in_cents, fee_number};

    // In cents, under the terms of segment 0 of a plan with this period.
    pub(crate) fn fee(self, heap: Global) -> Result<u64, RequestFault>
        ensures { Figures (fee_number (asked_period self) self.service self.tariff self.capacity) (fee_in_cents (asked_period self) self.service self.tariff self.capacity) result }
    {
        let mut plan = Plan::new(heap);
        plan.set_period(self.year, self.month, self.hours)?;
        plan.add_segment(AMR, self.service, self.tariff, 0)?;
        let period = plan.period().unwrap();
        let terms = plan.terms(AMR).unwrap();
        Ok(fee(&period, &terms, self.capacity)?)
    }
}
