// The plan that the cases open a month from.
use anyhow::Context;
use plan::{CarriedPeak, Meter, Plan, PlanFault, Segment};
use std::alloc::Global;

// Three hours of July 2022; meters 0 and 63 of AMR and meter 5 of EAV; and these carried peaks.
fn fill(plan: &mut Plan, peaks: &[(u32, u32)]) -> Result<(), PlanFault> {
    plan.set_period(2022, 7, 3)?;
    for segment in Segment::ALL {
        plan.add_segment(u32::from(segment), 0, 1067, 1000)?;
    }
    for (segment, number) in [(Segment::Amr, 0), (Segment::Amr, 63), (Segment::Eav, 5)] {
        plan.add_meter(Meter {
            segment: u32::from(segment),
            number,
            user: 0,
            station: 0,
        })?;
    }
    for &(meter, amount) in peaks {
        plan.add_carried(CarriedPeak { meter, amount })?;
    }
    Ok(())
}

pub(crate) fn plan_of(heap: Global, peaks: &[(u32, u32)]) -> anyhow::Result<Plan> {
    let mut plan = Plan::new(heap);
    fill(&mut plan, peaks).ok().context("the plan is refused")?;
    Ok(plan)
}
