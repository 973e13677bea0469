use crate::*;

#[test]
fn limits_of_meter_and_amount(rt: HostRuntime) {
    let mut source = Adding::new();
    assert_eq!(rt; source.note(63, 20_000), Ok(()));
    for (meter, amount) in [(63, 20_001), (64, 1), (u64::MAX, 1), (63, u64::MAX)] {
        assert_eq!(rt; source.note(meter, amount), Err(WeightFault::OutOfRange));
    }
    assert_eq!(rt; source.weight(63), Ok(20_000));
    assert_eq!(rt; source.weight(64), Err(WeightFault::OutOfRange));
    assert_eq!(rt; source.weight(u64::MAX), Err(WeightFault::OutOfRange));
}

#[test]
fn greatest_weight_of_a_meter(rt: HostRuntime) {
    let mut source = Adding::new();
    assert_eq!(rt; note_each(&mut source, 5, &[20_000; 750]), 750);
    assert_eq!(rt; source.note(5, 1), Err(WeightFault::TooHeavy));
    assert_eq!(rt; source.note(5, 20_001), Err(WeightFault::OutOfRange));
    assert_eq!(rt; note_each(&mut source, 5, &[1, 0, 20_001, 0]), 2);
    assert_eq!(rt; source.weight(5), Ok(15_000_000));
    source.reset();
    assert_eq!(rt; source.weight(5), Ok(0));
}

#[test]
fn larger_amount_is_kept(rt: HostRuntime) {
    let mut source = Greatest::new();
    assert_eq!(rt; note_each(&mut source, 0, &[300, 500, 20_001, 400]), 3);
    assert_eq!(rt; source.weight(0), Ok(500));
    assert_eq!(rt; source.weight(1), Ok(0));
    source.reset();
    assert_eq!(rt; source.weight(0), Ok(0));
}

#[test]
fn numbers_of_the_faults(rt: HostRuntime) {
    assert_eq!(rt; WeightFault::OutOfRange.number(), 3);
    assert_eq!(rt; WeightFault::TooHeavy.number(), 6);
}
