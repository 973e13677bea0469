// Puts bookings, and counts their words.
ghost use Rattle.std.specs.Prelude.{◌≡◌, ◌*◌, ◌≤◌, true, length, None};
ghost use Rattle.monthfile.specs.File.{booking_words, comes_next, one_on, select_words, spot_of};
ghost use Rattle.monthwriter.specs.Placing.{RoomFor, WordsPut, words_of_booking};
ghost use Rattle.monthwriter.specs.Refusals.{is_held};

use crate::month_file::MonthFile;
use crate::placing::Output;
use plan::Booking;
use words::{Spot, Word};

impl MonthFile<'_> {
    pub(crate) fn put_bookings(&self, out: &mut Output<'_>)
        requires { RoomFor out.old (booking_words None self.now.bookings.now) }
        ensures { WordsPut out.old (booking_words None self.now.bookings.now) out.new }
    {
        let mut next = None;
        for booking in self.bookings {
            put_booking(next, booking, out);
            next = Some(hour_after(booking));
        }
    }

    // How many words the bookings have. A loop keeps the bound of the total, and the hour that comes next, step by step.
    pub(crate) fn count_words(&self) -> u128
        ensures count { result ≡ length (booking_words None self.now.bookings.now) }
        ensures bound { result ≤ 2 * length self.now.bookings.now }
    {
        let mut words = 0;
        let mut next = None;
        for booking in self.bookings {
            words += if next == Some(spot_of(booking)) { 1 } else { 2 };
            next = Some(hour_after(booking));
        }
        words
    }
}

// A booking is an amount, with a select before it unless it is of the hour that comes next.
fn put_booking(next: Option<Spot>, booking: &Booking, out: &mut Output<'_>)
    requires { RoomFor out.old (words_of_booking next booking.now) }
    ensures { WordsPut out.old (words_of_booking next booking.now) out.new }
{
    put_select(next, spot_of(booking), out);
    out.put(Word::Amount {
        amount: booking.amount,
    });
}

// Puts the select of the hour, unless it is the one that comes next.
fn put_select(next: Option<Spot>, spot: Spot, out: &mut Output<'_>)
    requires { RoomFor out.old (select_words (comes_next next spot) spot) }
    ensures { WordsPut out.old (select_words (comes_next next spot) spot) out.new }
{
    if next != Some(spot) {
        out.put(Word::Select(spot));
    }
}

// The meter's hour that the booking books. Both types are other crates', so that `From` cannot be implemented here.
fn spot_of(booking: &Booking) -> Spot
    ensures { result ≡ spot_of booking.now }
{
    Spot {
        segment: booking.segment,
        meter: booking.meter,
        hour: booking.hour,
    }
}

// The hour after it.
fn hour_after(booking: &Booking) -> Spot
    requires { is_held booking.now ≡ true }
    ensures { result ≡ one_on (spot_of booking.now) }
{
    Spot {
        hour: booking.hour + 1,
        ..spot_of(booking)
    }
}
