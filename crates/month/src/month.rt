ghost use Rattle.std.specs.Prelude.{◌≡◌, ◌<◌, ◌≤◌, IfOk, OnOk};
ghost use Rattle.book.specs.Limits.{hour_count};
ghost use Rattle.plan.specs.OfPlan.{contents};
ghost use Rattle.plan.specs.Segments.{segment_number};
ghost use Rattle.month.specs.Bookings.{Checked, booking_within, meter_within};
ghost use Rattle.month.specs.Terms.{hours_of};

use crate::fault::BookingFault;
use crate::four::Four;
use plan::{Booking, GREATEST_AMOUNT, MOST_METERS, Plan, Segment};
use weights::WeightSource;

/// A month over any four weight sources. Its calls' clauses hold of every list of bookings that the books stand as; ghost
/// fields would tell of one alone.
pub struct Month<A: WeightSource, B: WeightSource, C: WeightSource, D: WeightSource> {
    pub(crate) plan: Plan,
    pub(crate) books: Four<A, B, C, D>,
}

impl<A: WeightSource, B: WeightSource, C: WeightSource, D: WeightSource> Month<A, B, C, D> {
    /// The segment that a booking is for, unless the plan has it refused.
    pub(crate) fn check_booking(&self, booking: &Booking) -> Result<Segment, BookingFault>
        ensures inside { OnOk result (booking.now.hour < hour_count) }
        ensures numbered { IfOk result (λ segment. segment_number segment ≡ booking.now.segment) }
        ensures answer { Checked (contents self.now.plan) (booking_within (hours_of (contents self.now.plan)) booking.now) booking.now.segment booking.now.meter result }
    {
        if booking.hour >= self.hours() || booking.amount > GREATEST_AMOUNT {
            return Err(BookingFault::OutOfRange);
        }
        self.check_meter(booking.segment, booking.meter)
    }

    /// The segment of this number, unless the plan has a call on the meter refused.
    pub(crate) fn check_meter(&self, segment: u32, meter: u32) -> Result<Segment, BookingFault>
        ensures numbered { IfOk result (λ found. segment_number found ≡ segment) }
        ensures answer { Checked (contents self.now.plan) (meter_within segment meter) segment meter result }
    {
        let found = Segment::try_from(segment).map_err(|_| BookingFault::OutOfRange)?;
        if meter >= MOST_METERS {
            return Err(BookingFault::OutOfRange);
        }
        if self.plan.holder(segment, meter).is_none() {
            return Err(BookingFault::Unassigned);
        }
        Ok(found)
    }

    /// The hours of the month.
    pub(crate) fn hours(&self) -> u32
        ensures value { result ≡ hours_of (contents self.now.plan) }
        ensures bound { result ≤ hour_count }
    {
        self.plan.period().map_or(0, |period| period.hours())
    }
}
