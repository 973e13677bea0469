// The calendar's rules on bare numbers.
ghost use Rattle.std.specs.Prelude.{◌≡◌};
ghost use Rattle.calendar.specs.Calendar.{leap, days_of_month, days_of_year, most_hours};

pub(crate) const FIRST_YEAR: u32 = 2000;

pub(crate) const LAST_YEAR: u32 = 2999;

pub(crate) const LAST_MONTH: u32 = 12;

pub(crate) const HOURS_OF_DAY: u32 = 24;

const COMMON_YEAR: u32 = 365;

const LEAP_YEAR: u32 = 366;

const LONGEST_MONTH: u32 = 31;

// Months stay numbers: the rules single out a few, and an enum would name all twelve and be numbered again for the seasons.
const MARCH: u32 = 3;

const OCTOBER: u32 = 10;

fn is_leap(year: u32) -> bool
    ensures { result ≡ leap year }
{
    year % 4 == 0 && (year % 100 != 0 || year % 400 == 0)
}

pub(crate) fn days_of_month(year: u32, month: u32) -> u32
    ensures { result ≡ days_of_month year month }
{
    match month {
        2 if is_leap(year) => 29,
        2 => 28,
        4 | 6 | 9 | 11 => 30,
        _ => LONGEST_MONTH,
    }
}

pub(crate) fn days_of_year(year: u32) -> u32
    ensures { result ≡ days_of_year year }
{
    if is_leap(year) {
        LEAP_YEAR
    } else {
        COMMON_YEAR
    }
}

// The clock goes forward in March and back in October.
pub(crate) fn most_hours(year: u32, month: u32) -> u32
    ensures { result ≡ most_hours year month }
{
    let whole = HOURS_OF_DAY * days_of_month(year, month);
    match month {
        MARCH => whole - 1,
        OCTOBER => whole + 1,
        _ => whole,
    }
}
