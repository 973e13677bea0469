// The period that is settled: so many hours of a gas month.
ghost use Rattle.std.specs.Prelude.{◌≡◌, ◌≤◌, true, false, Some, MatchOption};
ghost use Rattle.calendar.specs.Calendar.{common_year, leap_year, first_year, last_year, last_month, longest_month, most_hours, days_of_month, days_of_year, takes_period};

use crate::rules::{
    FIRST_YEAR, HOURS_OF_DAY, LAST_MONTH, LAST_YEAR, days_of_month, days_of_year, most_hours,
};

#[derive(Clone, Copy, PartialEq, Eq, Debug)]
pub struct Period {
    year: u32,
    month: u32,
    hours: u32,
    ghost taken: { takes_period year month hours ≡ true },
}

impl Period {
    ghost use Rattle.calendar.specs.OfPeriod.{days_billed, is_whole};

    // The period, if it can be settled. The three numbers come one by one, as callers have them; a struct of them before they
    // are judged would be no plainer.
    pub fn new(year: u32, month: u32, hours: u32) -> Option<Period>
        ensures cases { MatchOption result (takes_period year month hours ≡ false) (λ p. (takes_period year month hours ≡ true) × (p.year ≡ year) × (p.month ≡ month) × (p.hours ≡ hours)) }
        ensures only { (p : Period) → p.year ≡ year → p.month ≡ month → p.hours ≡ hours → result ≡ Some p }
    {
        if !(FIRST_YEAR..=LAST_YEAR).contains(&year) {
            return None;
        }
        if !(1..=LAST_MONTH).contains(&month) {
            return None;
        }
        if !(1..=most_hours(year, month)).contains(&hours) {
            return None;
        }
        Some(Period { year, month, hours })
    }

    pub fn year(&self) -> u32
        ensures value { result ≡ self.now.year }
        ensures bound { (first_year ≤ result) × (result ≤ last_year) }
    {
        self.year
    }

    pub fn month(&self) -> u32
        ensures value { result ≡ self.now.month }
        ensures bound { (1 ≤ result) × (result ≤ last_month) }
    {
        self.month
    }

    pub fn hours(&self) -> u32
        ensures value { result ≡ self.now.hours }
        ensures bound { (1 ≤ result) × (result ≤ most_hours self.now.year self.now.month) }
    {
        self.hours
    }

    // The days of the whole month.
    pub fn days(&self) -> u32
        ensures value { result ≡ days_of_month self.now.year self.now.month }
        ensures bound { result ≤ longest_month }
    {
        days_of_month(self.year, self.month)
    }

    // The days of the whole year.
    pub fn year_days(&self) -> u32
        ensures value { result ≡ days_of_year self.now.year }
        ensures bound { (common_year ≤ result) × (result ≤ leap_year) }
    {
        days_of_year(self.year)
    }

    pub fn billed_days(&self) -> u32
        ensures value { result ≡ days_billed self.now }
        ensures bound { (1 ≤ result) × (result ≤ longest_month) }
    {
        let begun = self.hours.div_ceil(HOURS_OF_DAY);
        begun.min(self.days())
    }

    pub fn is_whole_month(&self) -> bool
        ensures { result ≡ is_whole self.now }
    {
        self.billed_days() == self.days()
    }
}
