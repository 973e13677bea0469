// The calls that fill a plan. Each is refused by the first check that fails, and then leaves the plan as it was.
ghost use Rattle.std.specs.Prelude.{◌≡◌, ◌≤◌, Err, vec_len, vec_capacity, ◌≢◌};
ghost use Rattle.plan.specs.Calls.{Answered, AddCarried, AddMeter, AddSegment, SetPeriod};
ghost use Rattle.plan.specs.Contents.{nothing};
ghost use Rattle.plan.specs.OfPlan.{contents};
ghost use Rattle.plan.specs.WellMade.{MadeByCalls};
ghost use Rattle.plan.specs.declared.fault.PlanFault.TheVariants.{Memory};

use super::Plan;
use crate::carried::CarriedPeak;
use crate::fault::PlanFault;
use crate::meter::Meter;
use calendar::Period;
use std::alloc::Global;

impl Plan {
    // An empty plan. Which contents calls can make of it, and that these are the well-made ones, is stated here once for all
    // of them.
    pub fn new(heap: Global) -> Plan
        ensures empty { contents result ≡ nothing }
        ensures made { MadeByCalls }
    {
        Plan {
            period: None,
            segments: Vec::new(heap),
            meters: Vec::new(heap),
            carried: Vec::new(heap),
        }
    }

    // The numbers come one by one, here and in `add_segment`: `Period` and `Terms` are made only once they are judged, and
    // no caller has a struct of just these.
    pub fn set_period(&mut self, year: u32, month: u32, hours: u32) -> Result<(), PlanFault>
        ensures answer { Answered (contents self.old) (SetPeriod (record { year = year; month = month; hours = hours })) result (contents self.new) }
        ensures memory { result ≢ Err Memory }
    {
        if self.period.is_some() {
            return Err(PlanFault::OutOfOrder);
        }
        let period = Period::new(year, month, hours).ok_or(PlanFault::OutsideLimits)?;
        self.period = Some(period);
        Ok(())
    }

    pub fn add_segment(
        &mut self,
        segment: u32,
        service: u32,
        tariff: u32,
        factor: u32,
    ) -> Result<(), PlanFault>
        ensures answer { Answered (contents self.old) (AddSegment segment (record { service = service; tariff = tariff; factor = factor })) result (contents self.new) }
        ensures memory { result ≡ Err Memory → vec_capacity self.old.segments ≤ vec_len self.old.segments }
    {
        let terms = self.next_terms(segment, service, tariff, factor)?;
        self.segments.push(terms)?;
        Ok(())
    }

    pub fn add_meter(&mut self, meter: Meter) -> Result<(), PlanFault>
        ensures answer { Answered (contents self.old) (AddMeter meter) result (contents self.new) }
        ensures memory { result ≡ Err Memory → vec_capacity self.old.meters ≤ vec_len self.old.meters }
    {
        self.check_meter(&meter)?;
        self.meters.push(meter)?;
        Ok(())
    }

    pub fn add_carried(&mut self, peak: CarriedPeak) -> Result<(), PlanFault>
        ensures answer { Answered (contents self.old) (AddCarried peak) result (contents self.new) }
        ensures memory { result ≡ Err Memory → vec_capacity self.old.carried ≤ vec_len self.old.carried }
    {
        self.check_peak(&peak)?;
        self.carried.push(peak)?;
        Ok(())
    }
}
