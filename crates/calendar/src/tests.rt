use crate::Period;

#[test]
fn periods_that_are_taken(rt: HostRuntime) {
    for (year, month, hours) in [
        (2023, 3, 743),
        (2023, 10, 745),
        (2023, 4, 720),
        (2023, 4, 1),
        (2000, 1, 1),
        (2999, 12, 1),
    ] {
        assert!(rt; Period::new(year, month, hours).is_some());
    }
}

#[test]
fn periods_that_are_not_taken(rt: HostRuntime) {
    for (year, month, hours) in [
        (2023, 3, 744),
        (2023, 10, 746),
        (2023, 4, 721),
        (2023, 4, 0),
        (1999, 1, 1),
        (3000, 1, 1),
        (2023, 0, 1),
        (2023, 13, 1),
    ] {
        assert!(rt; Period::new(year, month, hours).is_none());
    }
}

// The days of February of a year, and of that year.
fn february(year: u32) -> Option<(u32, u32)> {
    let period = Period::new(year, 2, 1)?;
    Some((period.days(), period.year_days()))
}

#[test]
fn leap_years(rt: HostRuntime) {
    for (year, days, year_days) in [
        (2000, 29, 366),
        (2100, 28, 365),
        (2024, 29, 366),
        (2023, 28, 365),
    ] {
        assert_eq!(rt; february(year), Some((days, year_days)));
    }
}

// The days billed for so many hours of a month of 2023, and whether they are the whole month.
fn billed(month: u32, hours: u32) -> Option<(u32, bool)> {
    let period = Period::new(2023, month, hours)?;
    Some((period.billed_days(), period.is_whole_month()))
}

#[test]
fn days_begun_are_billed(rt: HostRuntime) {
    for (month, hours, days, whole) in [
        (4, 24, 1, false),
        (4, 25, 2, false),
        (4, 697, 30, true),
        (3, 743, 31, true),
        (10, 745, 31, true),
    ] {
        assert_eq!(rt; billed(month, hours), Some((days, whole)));
    }
}
