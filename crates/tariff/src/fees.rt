// The fee of a capacity, in cents.
ghost use Rattle.std.specs.Prelude.{◌≡◌, ◌≤◌, IfOk};
ghost use Rattle.calendar.specs.Calendar.{common_year, leap_year};
ghost use Rattle.tariff.specs.Bounds.{Payable, greatest_charge, greatest_season};
ghost use Rattle.tariff.specs.Faults.{told};
ghost use Rattle.tariff.specs.Fees.{NearestHalvesUp, charge_for, exact_fee, fee_for, fee_refusal, nearest, season_of};
ghost use Rattle.tariff.specs.Limits.{greatest_capacity, greatest_fee};

use crate::fault::TariffFault;
use crate::quotient::Quotient;
use crate::service::Service;
use crate::terms::Terms;
use calendar::Period;

// In kWh/h.
const GREATEST_CAPACITY: u64 = 2_560_000;

// The season of each month from January, in hundredths.
const SEASON: [u64; 12] = [175, 155, 130, 95, 65, 50, 50, 50, 65, 105, 140, 160];

// Of a service under a year, in hundredths.
const PART_YEAR_MULTIPLIER: u64 = 145;

// How many times dearer a service under a month is.
const SHORT_TERM_COEFFICIENT: u64 = 5;

// A tariff counts tenths of a cent.
const TENTHS_OF_CENT: u64 = 10;

// The same with a multiplier and a season, each in hundredths.
const SEASONAL_PARTS: u64 = 100_000;

fn season_of(period: &Period) -> u64
    ensures value { result ≡ season_of period.now.month }
    ensures bound { result ≤ greatest_season }
{
    SEASON[period.month() as usize - 1]
}

fn charge_for(period: &Period, terms: &Terms, capacity: u64) -> u64
    requires { capacity ≤ greatest_capacity }
    ensures value { result ≡ charge_for period.now terms.now capacity }
    ensures bound { result ≤ greatest_charge }
{
    capacity * terms.tariff() as u64 * period.billed_days() as u64
}

fn exact_fee(service: Service, charge: u64, season: u64, year_days: u64) -> Quotient
    requires charge { charge ≤ greatest_charge }
    requires season { season ≤ greatest_season }
    requires year { (common_year ≤ year_days) × (year_days ≤ leap_year) }
    ensures value { result ≡ exact_fee service charge season year_days }
    ensures bound { Payable result }
{
    let seasonal = charge * PART_YEAR_MULTIPLIER * season;
    match service {
        Service::FullYear => Quotient {
            dividend: charge,
            divisor: year_days * TENTHS_OF_CENT,
        },
        Service::PartYear => Quotient {
            dividend: seasonal,
            divisor: year_days * SEASONAL_PARTS,
        },
        Service::PartMonth => Quotient {
            dividend: SHORT_TERM_COEFFICIENT * seasonal,
            divisor: year_days * SEASONAL_PARTS,
        },
    }
}

// The fee of a capacity of so many kWh/h under a segment's terms. Whether a period allows the service is judged where
// the terms are made, and not again here.
pub fn fee(period: &Period, terms: &Terms, capacity: u64) -> Result<u64, TariffFault>
    ensures answer { told result ≡ fee_refusal capacity }
    ensures value { IfOk result (λ cents. cents ≡ nearest (fee_for period.now terms.now capacity)) }
    ensures law { IfOk result (NearestHalvesUp (fee_for period.now terms.now capacity)) }
    ensures bound { IfOk result (λ cents. cents ≤ greatest_fee) }
{
    if capacity > GREATEST_CAPACITY {
        return Err(TariffFault::OutsideLimits);
    }
    let charge = charge_for(period, terms, capacity);
    let season = season_of(period);
    let year_days = period.year_days() as u64;
    Ok(exact_fee(terms.service(), charge, season, year_days).nearest())
}
