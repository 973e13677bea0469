// A plan as it is filled. Its entries stand in the order in which they came.
ghost use Rattle.std.specs.Prelude.{◌≡◌, true};
ghost use Rattle.plan.specs.View.{view_of};
ghost use Rattle.plan.specs.WellMade.{is_well_made};

mod calls;
mod checks;
mod questions;

use crate::carried::CarriedPeak;
use crate::meter::Meter;
use calendar::Period;
use tariff::Terms;

#[derive(Drop)]
pub struct Plan {
    period: Option<Period>,
    segments: Vec<Terms>,
    meters: Vec<Meter>,
    carried: Vec<CarriedPeak>,
    ghost well_made: { is_well_made (view_of period segments.items meters.items carried.items) ≡ true },
}
