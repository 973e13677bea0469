ghost use Rattle.std.specs.Prelude.{◌≡◌, true, false, IfOk, OnErr};
ghost use Rattle.month.specs.Calls.{Answers, AnswersEach, accepted_from, after_call, is_booked, none_booked};
ghost use Rattle.month.specs.Laws.{Rearranges};
ghost use Rattle.month.specs.OfMonth.{state_of};
ghost use Rattle.month.specs.Stands.{AsStands, Stands, Unchanged};

use crate::call::{Answer, Call};
use crate::fault::BookingFault;
use crate::month::Month;
use crate::open::Open;
use std::alloc::{AllocError, Global};
use weights::WeightSource;

impl<A: WeightSource, B: WeightSource, C: WeightSource, D: WeightSource> Open<Month<A, B, C, D>> {
    /// Makes the calls one after another, and gives what each of them answers; a call that is refused changes nothing. The
    /// order in which bookings were accepted makes no difference to weights, hours and sums. Want of memory comes before
    /// the first call and changes nothing.
    pub fn run(
        &mut self,
        heap: Global,
        calls: &[Call],
    ) -> Result<Vec<Result<Answer, BookingFault>>, AllocError>
        ensures ran { IfOk result (λ answers. AsStands (state_of self.old.0) (λ terms bookings. Stands terms (accepted_from terms bookings calls.now) (state_of self.new.0) × AnswersEach terms bookings calls.now answers.items)) }
        ensures unchanged { IfOk result (λ answers. none_booked answers.items ≡ true → Unchanged (state_of self.old.0) (state_of self.new.0)) }
        ensures memory { OnErr result (self.new ≡ self.old) }
        ensures rearranged { AsStands (state_of self.old.0) (λ terms bookings. Rearranges terms) }
    {
        // A loop, over memory that was had first: collecting would ask for it between two calls.
        let mut answers = Vec::with_capacity(heap, calls.len())?;
        for call in calls {
            answers.push_reserved(self.answer(call));
        }
        Ok(answers)
    }

    fn answer(&mut self, call: &Call) -> Result<Answer, BookingFault>
        ensures answered { AsStands (state_of self.old.0) (λ terms bookings. Answers terms bookings call.now result × Stands terms (after_call terms bookings call.now) (state_of self.new.0)) }
        ensures unchanged { is_booked result ≡ false → Unchanged (state_of self.old.0) (state_of self.new.0) }
    {
        match *call {
            Call::Book(booking) => self.book(booking).map(|()| Answer::Booked),
            Call::Ask { segment, meter } => Ok(Answer::Missing(self.missing(segment, meter)?)),
        }
    }
}
