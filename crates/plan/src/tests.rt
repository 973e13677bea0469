use crate::{CarriedPeak, Meter, Plan, PlanFault};
use std::process::Abort;
use std::test::Fail;

#[derive(Clone, Copy)]
enum Call {
    Period(u32, u32, u32),
    Segment(u32, u32, u32, u32),
    Meter(u32, u32, u32, u32),
    Peak(u32, u32),
}

fn made(plan: &mut Plan, call: Call) -> Result<(), PlanFault> {
    match call {
        Call::Period(year, month, hours) => plan.set_period(year, month, hours),
        Call::Segment(segment, service, tariff, factor) => {
            plan.add_segment(segment, service, tariff, factor)
        }
        Call::Meter(segment, number, user, station) => {
            plan.add_meter(Meter {
                segment,
                number,
                user,
                station,
            })
        }
        Call::Peak(meter, amount) => plan.add_carried(CarriedPeak { meter, amount }),
    }
}

// Makes the calls, each of which is to be answered with its number, or with 0 where it is taken: the values of the tables
// below.
fn answered(rt: &impl Abort, plan: &mut Plan, calls: &[(Call, u8)]) -> Result<(), Fail> {
    for (call, number) in calls {
        let told = match made(plan, *call) {
            Ok(()) => 0,
            Err(fault) => fault.number().ok_or("no memory")?,
        };
        assert_eq!(rt; told, *number);
    }
    Ok(())
}

// A period of 2 hours and four segments, with what is refused on the way.
fn opened(rt: &impl Abort, plan: &mut Plan) -> Result<(), Fail> {
    answered(
        rt,
        plan,
        &[
            (Call::Segment(0, 0, 1067, 1000), 2),
            (Call::Period(2022, 7, 745), 3),
            (Call::Period(2022, 7, 2), 0),
            (Call::Period(2022, 7, 745), 2),
            (Call::Segment(1, 3, 1067, 1000), 2),
            (Call::Segment(0, 1, 1067, 1000), 3),
            (Call::Segment(0, 0, 1067, 1000), 0),
            (Call::Segment(1, 0, 1067, 1000), 0),
            (Call::Segment(2, 0, 1067, 1000), 0),
            (Call::Meter(0, 0, 0, 0), 2),
            (Call::Peak(0, 1), 2),
            (Call::Segment(3, 0, 1067, 1000), 0),
            (Call::Segment(4, 0, 1067, 1000), 2),
        ],
    )
}

fn user(plan: &Plan, segment: u32, meter: u32) -> Option<u32> {
    Some(plan.holder(segment, meter)?.user)
}

fn tariff(plan: &Plan, segment: u32) -> Option<u32> {
    Some(plan.terms(segment)?.tariff())
}

#[test]
fn july(rt: HostRuntime) -> Result<(), Fail> {
    let mut plan = Plan::new(rt.alloc());
    assert!(rt; !plan.is_full());
    opened(&rt, &mut plan)?;
    assert!(rt; plan.is_full());
    answered(
        &rt,
        &mut plan,
        &[(Call::Meter(0, 0, 0, 0), 0), (Call::Meter(0, 1, 1, 0), 0)],
    )?;
    assert_eq!(rt; user(&plan, 0, 1), Some(1));
    assert_eq!(rt; user(&plan, 1, 1), None);
    assert_eq!(rt; tariff(&plan, 3), Some(1067));
    assert_eq!(rt; tariff(&plan, 4), None);
    assert_eq!(rt; plan.carried_peak(1), None);
    Ok(())
}

#[test]
fn meters_and_peaks(rt: HostRuntime) -> Result<(), Fail> {
    let mut plan = Plan::new(rt.alloc());
    opened(&rt, &mut plan)?;
    answered(
        &rt,
        &mut plan,
        &[
            (Call::Meter(4, 0, 0, 0), 3),
            (Call::Meter(0, 64, 0, 0), 3),
            (Call::Meter(0, 0, 16, 0), 3),
            (Call::Meter(0, 0, 0, 16), 3),
            (Call::Meter(0, 1, 0, 0), 0),
            (Call::Meter(0, 1, 16, 16), 2),
            (Call::Meter(0, 0, 0, 0), 2),
            (Call::Meter(0, 2, 0, 0), 0),
            (Call::Meter(3, 63, 15, 15), 0),
            (Call::Meter(2, 64, 0, 0), 2),
            (Call::Peak(64, 1), 3),
            (Call::Peak(63, 0), 3),
            (Call::Peak(1, 20_001), 3),
            (Call::Peak(63, 20_000), 4),
            (Call::Peak(1, 20_000), 0),
            (Call::Peak(1, 20_001), 2),
            (Call::Peak(2, 1), 0),
            (Call::Meter(3, 64, 0, 0), 2),
        ],
    )?;
    assert_eq!(rt; plan.carried_peak(1), Some(20_000));
    Ok(())
}
