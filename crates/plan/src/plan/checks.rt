// The checks of the calls that fill a plan. The first that fails is the answer: order, then values, then an unassigned
// meter.
ghost use Rattle.std.specs.Prelude.{◌≡◌, IfOk};
ghost use Rattle.plan.specs.Calls.{AddCarried, AddMeter, AddSegment, refusal_of};
ghost use Rattle.plan.specs.Faults.{Checked};
ghost use Rattle.plan.specs.OfPlan.{contents};
ghost use Rattle.plan.specs.View.{segment_numbers};

use super::Plan;
use crate::carried::CarriedPeak;
use crate::entry::{Entry, is_above};
use crate::fault::{PlanFault, judge};
use crate::limits::AMR;
use crate::meter::Meter;
use crate::segment::Segment;
use tariff::Terms;

impl Plan {
    // The terms of the plan's next segment.
    pub(super) fn next_terms(
        &self,
        segment: u32,
        service: u32,
        tariff: u32,
        factor: u32,
    ) -> Result<Terms, PlanFault>
        ensures answer { Checked (refusal_of (contents self.now) (AddSegment segment (record { service = service; tariff = tariff; factor = factor }))) result }
        ensures terms { IfOk result (λ t. segment_numbers t ≡ record { service = service; tariff = tariff; factor = factor }) }
    {
        let period = self.period.ok_or(PlanFault::OutOfOrder)?;
        if segment as usize != self.segment_count() || Segment::try_from(segment).is_err() {
            return Err(PlanFault::OutOfOrder);
        }
        Ok(Terms::new(&period, service, tariff, factor)?)
    }

    pub(super) fn check_meter(&self, meter: &Meter) -> Result<(), PlanFault>
        ensures { Checked (refusal_of (contents self.now) (AddMeter meter.now)) result }
    {
        let ordered = self.is_full() && self.carried.is_empty() && is_above(&self.meters, meter);
        judge(ordered, meter.is_within_limits(), true)
    }

    pub(super) fn check_peak(&self, peak: &CarriedPeak) -> Result<(), PlanFault>
        ensures { Checked (refusal_of (contents self.now) (AddCarried peak.now)) result }
    {
        let ordered = self.is_full() && is_above(&self.carried, peak);
        let assigned = self.holder(AMR, peak.meter).is_some();
        judge(ordered, peak.is_within_limits(), assigned)
    }
}
