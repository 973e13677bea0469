// Judges whether a file can be written, before a byte is.
ghost use Rattle.std.specs.Prelude.{◌≡◌, Some, None, MatchResult};
ghost use Rattle.std.specs.List.{list_all};
ghost use Rattle.plan.specs.OfPlan.{contents};
ghost use Rattle.monthwriter.specs.Refusals.{is_held, number_of, write_refusal};

use crate::fault::WriteFault;
use crate::month_file::MonthFile;
use monthfile::LAST_HOUR;
use plan::{Booking, MOST_METERS, Plan, Segment};

// The greatest amount that the bits of its field hold.
const GREATEST_HELD: u32 = 32_767;

// The first check that fails gives the answer.
pub(crate) fn check<'a>(
    plan: &'a Plan,
    bookings: &'a [Booking],
    room: usize,
) -> Result<MonthFile<'a>, WriteFault>
    ensures { MatchResult result (λ file. (write_refusal (contents plan.now) bookings.now room ≡ None) × (file.plan.now ≡ plan.now) × (file.bookings.now ≡ bookings.now)) (λ fault. write_refusal (contents plan.now) bookings.now room ≡ Some (number_of fault)) }
{
    if !plan.is_full() {
        return Err(WriteFault::NotFull);
    }
    if !all_held(bookings) {
        return Err(WriteFault::OutsideLimits);
    }
    let file = MonthFile { plan, bookings };
    if file.length() > room as u128 {
        return Err(WriteFault::ShortMemory);
    }
    Ok(file)
}

fn all_held(bookings: &[Booking]) -> bool
    ensures { result ≡ list_all is_held bookings.now }
{
    bookings.iter().all(is_held)
}

// Whether a file can hold the booking.
fn is_held(booking: &Booking) -> bool
    ensures { result ≡ is_held booking.now }
{
    Segment::try_from(booking.segment).is_ok()
        && booking.meter < MOST_METERS
        && booking.hour <= LAST_HOUR
        && booking.amount <= GREATEST_HELD
}
