use crate::{TariffFault, Terms, fee, segment_total};
use calendar::Period;

// A total, or nothing where it is refused.
#[test]
fn totals(rt: HostRuntime) {
    for (peak, factor, total) in [
        (1, 1, Some(1)),
        (1, 0, Some(0)),
        (1_280_000, 2_000, Some(2_560_000)),
        (1_280_001, 2_000, None),
        (1_280_000, 2_001, None),
    ] {
        assert_eq!(rt; segment_total(peak, factor).ok(), total);
    }
}

// The fee of a capacity for so many hours of a month of 2022, or nothing where it is refused.
fn cents(month: u32, hours: u32, service: u32, tariff: u32, capacity: u64) -> Option<u64> {
    let period = Period::new(2022, month, hours)?;
    let terms = Terms::new(&period, service, tariff, 1_000).ok()?;
    fee(&period, &terms, capacity).ok()
}

#[test]
fn fees(rt: HostRuntime) {
    for (month, hours, service, tariff, capacity, answer) in [
        (1, 744, 0, 1_067, 1_000, Some(9_062)),
        (1, 744, 1, 1_067, 1_000, Some(22_995)),
        (7, 24, 2, 1_067, 100, Some(106)),
        (7, 24, 0, 5, 365, Some(1)),
        (7, 24, 0, 4, 365, Some(0)),
        (1, 720, 2, 9_999, 2_560_000, Some(2_669_322_082)),
        (1, 720, 2, 9_999, 2_560_001, None),
    ] {
        assert_eq!(rt; cents(month, hours, service, tariff, capacity), answer);
    }
}

// The number with which terms are refused for so many hours of April, 0 where they are taken: the values of the table below.
fn refusal(hours: u32, service: u32, tariff: u32, factor: u32) -> Option<u8> {
    let period = Period::new(2022, 4, hours)?;
    let fault = Terms::new(&period, service, tariff, factor).err();
    Some(fault.map_or(0, TariffFault::number))
}

#[test]
fn limits_of_terms(rt: HostRuntime) {
    for (hours, service, tariff, factor, number) in [
        (720, 1, 9_999, 2_000, 0),
        (696, 2, 9_999, 2_000, 0),
        (1, 0, 0, 0, 0),
        (696, 1, 9_999, 2_000, 3),
        (720, 2, 9_999, 2_000, 3),
        (720, 3, 9_999, 2_000, 3),
        (720, 0, 10_000, 2_000, 3),
        (720, 0, 9_999, 2_001, 3),
    ] {
        assert_eq!(rt; refusal(hours, service, tariff, factor), Some(number));
    }
}
