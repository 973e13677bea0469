ghost use Rattle.std.specs.Prelude.{◌≡◌, IfOk};
ghost use Rattle.std.specs.List.{ContainsAt as Has};
ghost use Rattle.plan.specs.OfPlan.{contents};
ghost use Rattle.month.specs.Gaps.{AnswersGap, AnswersGaps, gap_of, gaps_of};
ghost use Rattle.month.specs.OfMonth.{state_of};
ghost use Rattle.month.specs.Stands.{AsStands};

use crate::month::Month;
use crate::open::Open;
use plan::Meter;
use std::alloc::{AllocError, Global};
use weights::WeightSource;

/// A meter, and how many hours it still misses.
#[derive(Clone, Copy, PartialEq, Eq, Debug)]
pub struct Gap {
    /// By its number, as the plan's meters have it.
    pub segment: u32,
    pub meter: u32,
    pub hours: u64,
}

impl<A: WeightSource, B: WeightSource, C: WeightSource, D: WeightSource> Open<Month<A, B, C, D>> {
    /// How many hours of the month each assigned meter still misses, in the plan's order.
    pub fn gaps(&self, heap: Global) -> Result<Vec<Gap>, AllocError>
        ensures { IfOk result (λ gaps. AsStands (state_of self.now.0) (λ terms bookings. (gaps.items ≡ gaps_of terms bookings) × AnswersGaps terms bookings gaps.items)) }
    {
        // A loop: collected from a chain, it stays open that the plan assigns each meter the closure is called for.
        let meters = self.0.plan.meters();
        let mut gaps = Vec::new(heap);
        for meter in meters {
            gaps.push(self.gap(meter))?;
        }
        Ok(gaps)
    }

    fn gap(&self, meter: &Meter) -> Gap
        requires { Has (contents self.now.0.plan).meters meter.now }
        ensures { AsStands (state_of self.now.0) (λ terms bookings. (result ≡ gap_of terms bookings meter.now) × AnswersGap terms bookings result) }
    {
        // The plan assigns the meter, so the question is not refused.
        let hours = self.missing(meter.segment, meter.number).unwrap();
        Gap {
            segment: meter.segment,
            meter: meter.number,
            hours,
        }
    }
}
