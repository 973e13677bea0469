// What a plan answers.
ghost use Rattle.std.specs.Prelude.{◌≡◌, ◌<◌, ◌≤◌, true, length, IfSome, Some};
ghost use Rattle.plan.specs.Limits.{greatest_amount, most_stations, most_users};
ghost use Rattle.plan.specs.View.{period_numbers, segment_numbers};
ghost use Rattle.plan.specs.Questions.{Complete, holder_of, holding, is_full, peak_of, terms_of};
ghost use Rattle.plan.specs.OfPlan.{contents};
ghost use Rattle.plan.specs.WellMade.{is_well_made};
ghost use Rattle.std.specs.Option.{option_map};
ghost use Rattle.std.specs.List.{ContainsAt as Has};

use super::Plan;
use crate::carried::CarriedPeak;
use crate::entry::entry_at;
use crate::limits::{AMR, MOST_SEGMENTS};
use crate::meter::{Holder, Meter};
use calendar::Period;
use tariff::Terms;

impl Plan {
    // Whether a month can be opened from the plan.
    pub fn is_full(&self) -> bool
        ensures answer { result ≡ is_full (contents self.now) }
        ensures complete { result ≡ true → Complete (contents self.now) }
    {
        self.segment_count() == MOST_SEGMENTS as usize
    }

    pub(super) fn segment_count(&self) -> usize
        ensures { result ≡ length (contents self.now).segments }
    {
        self.segments.len()
    }

    pub fn period(&self) -> Option<Period>
        ensures { option_map period_numbers result ≡ (contents self.now).period }
    {
        self.period
    }

    // Here and below segments and meters are asked for by number, since a caller may name one that is none, and one by one:
    // a pair would be made for the question alone.
    pub fn terms(&self, segment: u32) -> Option<Terms>
        ensures { option_map segment_numbers result ≡ terms_of (contents self.now) segment }
    {
        self.segments.get(segment as usize).copied()
    }

    // Whose the meter is and where it stands, if the plan assigns it.
    pub fn holder(&self, segment: u32, meter: u32) -> Option<Holder>
        ensures answer { result ≡ holder_of (contents self.now) segment meter }
        ensures only { (m : Meter) → Has (contents self.now).meters m → m.segment ≡ segment → m.number ≡ meter → result ≡ Some (holding m) }
        ensures bound { IfSome result (λ h. (h.user < most_users) × (h.station < most_stations)) }
    {
        entry_at(&self.meters, (segment, meter)).map(|found| found.holder())
    }

    // The peak that the meter carries over from earlier months.
    pub fn carried_peak(&self, meter: u32) -> Option<u32>
        ensures answer { result ≡ peak_of (contents self.now) meter }
        ensures only { (p : CarriedPeak) → Has (contents self.now).carried p → p.meter ≡ meter → result ≡ Some p.amount }
        ensures bound { IfSome result (λ amount. (1 ≤ amount) × (amount ≤ greatest_amount)) }
    {
        entry_at(&self.carried, (AMR, meter)).map(|found| found.amount)
    }

    // The meters, ascending by segment and then by number.
    pub fn meters(&self) -> &[Meter]
        ensures answer { result.now ≡ (contents self.now).meters }
        ensures well_made { is_well_made (contents self.now) ≡ true }
    {
        self.meters.as_slice()
    }

    // The carried peaks, ascending by meter.
    pub fn carried(&self) -> &[CarriedPeak]
        ensures answer { result.now ≡ (contents self.now).carried }
        ensures well_made { is_well_made (contents self.now) ≡ true }
    {
        self.carried.as_slice()
    }
}
