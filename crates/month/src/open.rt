ghost use Rattle.std.specs.Prelude.{◌≡◌, ℕ, true, [], Some, None, IfOk, MatchResult, OnErr, OnOk};
ghost use Rattle.book.specs.Answers.{Opened};
ghost use Rattle.plan.specs.OfPlan.{contents};
ghost use Rattle.plan.specs.Questions.{is_full};
ghost use Rattle.month.specs.Bookings.{ask_refusal};
ghost use Rattle.month.specs.Calls.{AnswersBooking, AnswersQuestion, after_call};
ghost use Rattle.month.specs.Faults.{number_of};
ghost use Rattle.month.specs.OfMonth.{NotOpened, books_of, held_sources, state_of, terms_of};
ghost use Rattle.month.specs.Stands.{AsStands, BookingEntered, Stands, Unchanged, unmarked_at};
ghost use Rattle.month.specs.declared.call.Call.TheVariants.{Book as BookCall};

use crate::fault::{BookingFault, OpeningFault};
use crate::four::Four;
use crate::month::Month;
use crate::opening::Unopened;
use crate::sources::Sources;
use plan::{Booking, Plan};
use std::alloc::Global;
use weights::WeightSource;

/// A month that takes bookings. It is let go only by the calls that end it.
pub struct Open<M>(pub(crate) M);

impl<A: WeightSource, B: WeightSource, C: WeightSource, D: WeightSource> Open<Month<A, B, C, D>> {
    /// Opens a month from a full plan: resets the sources and notes the carried peaks. Refused with 2 where the plan is not
    /// full, and plan and sources come back as they were; then with 6 where a carried peak makes a weight that passes
    /// 15,000,000, and the sources come back reset. Want of memory has no number; plan and sources come back as with 6.
    pub fn open(
        heap: Global,
        plan: Plan,
        sources: Sources<A, B, C, D>,
    ) -> Result<Open<Month<A, B, C, D>>, Unopened<A, B, C, D>>
        ensures { MatchResult result (λ month. Stands (terms_of A.WeightSource B.WeightSource C.WeightSource D.WeightSource plan sources) [] (state_of month.0)) (λ unopened. NotOpened A.WeightSource B.WeightSource C.WeightSource D.WeightSource plan sources unopened) }
    {
        if !plan.is_full() {
            return Err(Unopened {
                fault: OpeningFault::NotFull,
                plan,
                sources,
            });
        }
        // A match, since either outcome takes the plan, which one closure alone could.
        match Four::open(heap, sources) {
            Ok(books) => Open::with_peaks(plan, books),
            Err(sources) => Err(Unopened::reset(OpeningFault::Memory, plan, sources)),
        }
    }

    /// A month of the plan over newly opened books, in which the carried peaks are noted.
    fn with_peaks(
        plan: Plan,
        mut books: Four<A, B, C, D>,
    ) -> Result<Open<Month<A, B, C, D>>, Unopened<A, B, C, D>>
        requires opened { (s : ℕ) → Opened (books_of books s) }
        requires full { is_full (contents plan) ≡ true }
        ensures { MatchResult result (λ month. Stands (terms_of A.WeightSource B.WeightSource C.WeightSource D.WeightSource plan (held_sources books)) [] (state_of month.0)) (λ unopened. NotOpened A.WeightSource B.WeightSource C.WeightSource D.WeightSource plan (held_sources books) unopened) }
    {
        // A match, since either outcome takes plan and books, which one closure alone could.
        match books.carry(plan.carried()) {
            Ok(()) => Ok(Open(Month { plan, books })),
            Err(fault) => Err(Unopened::reset(fault, plan, books.release())),
        }
    }

    /// Books the amount of a meter in an hour. Refused with 3 for a segment above 3, a meter above 63, an hour past the month
    /// or an amount above 20,000; then with 4 for a meter that the plan does not assign; then with 5 for an hour that the
    /// meter has; then with 6 where the meter's weight would pass 15,000,000. A refusal changes nothing.
    pub fn book(&mut self, booking: Booking) -> Result<(), BookingFault>
        ensures answered { AsStands (state_of self.old.0) (λ terms bookings. AnswersBooking terms bookings booking result × Stands terms (after_call terms bookings (BookCall booking)) (state_of self.new.0)) }
        ensures changed { OnOk result (BookingEntered (state_of self.old.0) booking (state_of self.new.0)) }
        ensures unchanged { OnErr result (Unchanged (state_of self.old.0) (state_of self.new.0)) }
    {
        let segment = self.0.check_booking(&booking)?;
        Ok(self.0.books.book_in(segment, &booking)?)
    }

    /// How many hours of the month a meter still misses. Refused with 3 for a segment above 3 or a meter above 63, then with
    /// 4 for a meter that the plan does not assign. The segment is a number, since a caller may name one that is none.
    pub fn missing(&self, segment: u32, meter: u32) -> Result<u64, BookingFault>
        ensures answered { AsStands (state_of self.now.0) (λ terms bookings. AnswersQuestion terms bookings segment meter result) }
        ensures counted { IfOk result (λ hours. hours ≡ unmarked_at (state_of self.now.0) segment meter) }
        ensures refusal { MatchResult result (λ _. ask_refusal (contents self.now.0.plan) segment meter ≡ None) (λ fault. ask_refusal (contents self.now.0.plan) segment meter ≡ Some (number_of fault)) }
    {
        let segment = self.0.check_meter(segment, meter)?;
        Ok(self.0.books.missing_in(segment, meter, self.0.hours())?)
    }

    /// Gives the month up and hands back its plan and its sources.
    pub fn abandon(self) -> (Plan, Sources<A, B, C, D>)
        ensures { (result.0 ≡ self.0.plan) × (result.1 ≡ held_sources self.0.books) }
    {
        let Open(Month { plan, books }) = self;
        (plan, books.release())
    }
}
