// A plan and bookings that a file holds: the plan is full, and each booking fits.
ghost use Rattle.std.specs.Prelude.{◌≡◌, true, length};
ghost use Rattle.std.specs.List.{list_all};
ghost use Rattle.plan.specs.OfPlan.{contents};
ghost use Rattle.plan.specs.Questions.{is_full};
ghost use Rattle.monthfile.specs.File.{file_of, file_words};
ghost use Rattle.monthwriter.specs.Placing.{RoomFor, WordsPut};
ghost use Rattle.monthwriter.specs.Refusals.{is_held};

use crate::entries::put_meters_and_peaks;
use crate::placing::Output;
use plan::{Booking, MOST_SEGMENTS, Plan};
use words::WORD_BYTES;

// The period has one word, each segment two.
const HEAD_WORDS: u128 = 1 + 2 * MOST_SEGMENTS as u128;

#[derive(Clone, Copy)]
pub(crate) struct MonthFile<'a> {
    pub(crate) plan: &'a Plan,
    pub(crate) bookings: &'a [Booking],
    ghost full: { is_full (contents plan.now) ≡ true },
    ghost held: { list_all is_held bookings.now ≡ true },
}

impl MonthFile<'_> {
    // How many bytes the file has. The sum has more bits than a length in memory, so that it cannot wrap.
    pub(crate) fn length(&self) -> u128
        ensures { result ≡ length (file_of (contents self.now.plan.now) self.now.bookings.now) }
    {
        let entries = self.plan.meters().len() as u128 + self.plan.carried().len() as u128;
        let words = HEAD_WORDS + entries + self.count_words();
        WORD_BYTES as u128 * words
    }

    pub(crate) fn put(&self, out: &mut Output<'_>)
        requires { RoomFor out.old (file_words (contents self.now.plan.now) self.now.bookings.now) }
        ensures { WordsPut out.old (file_words (contents self.now.plan.now) self.now.bookings.now) out.new }
    {
        self.put_period(out);
        self.put_segments(out);
        put_meters_and_peaks(self.plan, out);
        self.put_bookings(out);
    }
}
