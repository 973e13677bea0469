// A peak that a meter carries over from earlier months.
ghost use Rattle.plan.specs.Calls.{peak_fits};
ghost use Rattle.plan.specs.Limits.{amr};

use crate::entry::Entry;
use crate::limits::{AMR, GREATEST_AMOUNT, MOST_METERS};

#[derive(Clone, Copy, PartialEq, Eq, Debug)]
pub struct CarriedPeak {
    pub meter: u32,
    // The meter's greatest amount in the eleven months before.
    pub amount: u32,
}

impl Entry for CarriedPeak {
    ghost place_of = { λ p. (amr, p.meter) };

    ghost fits = { peak_fits };

    fn place(&self) -> (u32, u32) {
        (AMR, self.meter)
    }

    fn is_within_limits(&self) -> bool {
        self.meter < MOST_METERS && (1..=GREATEST_AMOUNT).contains(&self.amount)
    }
}
