ghost use Rattle.std.specs.Prelude.{◌≡◌, ℕ, ◌-◌, ◌<◌, true, false, IfOk, MatchResult, ◌≢◌};
ghost use Rattle.std.specs.List.{list_all};
ghost use Rattle.book.specs.Answers.{Answered, Booked, Opened};
ghost use Rattle.book.specs.Contents.{count_at};
ghost use Rattle.plan.specs.Calls.{peak_fits, peak_precedes};
ghost use Rattle.plan.specs.Limits.{amr as first_segment, most_segments};
ghost use Rattle.plan.specs.WellMade.{ascending};
ghost use Rattle.weights.specs.Answers.{ask_refusal};
ghost use Rattle.month.specs.Faults.{opening_number_of};
ghost use Rattle.book.specs.OfBook.{book_contents};
ghost use Rattle.plan.specs.Segments.{segment_number};
ghost use Rattle.month.specs.OfMonth.{book_joins, books_of, held_sources, source_joins};
ghost use Rattle.month.specs.Opening.{PeaksNoted, peaks_light, peak_too_heavy};

use crate::fault::OpeningFault;
use crate::peaks::carry_peaks;
use crate::sources::Sources;
use book::{Book, BookFault};
use plan::{Booking, CarriedPeak, Segment};
use std::alloc::Global;
use weights::WeightSource;

/// The books of the four segments.
pub(crate) struct Four<A: WeightSource, B: WeightSource, C: WeightSource, D: WeightSource> {
    amr: Book<A>,
    s30: Book<B>,
    mrc: Book<C>,
    eav: Book<D>,
}

impl<A: WeightSource, B: WeightSource, C: WeightSource, D: WeightSource> Four<A, B, C, D> {
    /// Opens a book over each source. Want of memory hands the sources back.
    pub(crate) fn open(
        heap: Global,
        sources: Sources<A, B, C, D>,
    ) -> Result<Four<A, B, C, D>, Sources<A, B, C, D>>
        ensures opened { IfOk result (λ four. (s : ℕ) → Opened (books_of four s)) }
        ensures joins { MatchResult result (λ four. book_joins four ≡ source_joins A.WeightSource B.WeightSource C.WeightSource D.WeightSource sources) (λ left. source_joins A.WeightSource B.WeightSource C.WeightSource D.WeightSource left ≡ source_joins A.WeightSource B.WeightSource C.WeightSource D.WeightSource sources) }
    {
        let Sources { amr, s30, mrc, eav } = sources;
        // Matches, since either outcome takes the sources that are left, which one closure alone could.
        match open_two(heap, amr, s30) {
            Ok((amr, s30)) => match open_two(heap, mrc, eav) {
                Ok((mrc, eav)) => Ok(Four { amr, s30, mrc, eav }),
                Err((mrc, eav)) => Err(Sources {
                    amr: amr.release(),
                    s30: s30.release(),
                    mrc,
                    eav,
                }),
            },
            Err((amr, s30)) => Err(Sources { amr, s30, mrc, eav }),
        }
    }

    /// Notes the carried peaks in the first segment's book.
    pub(crate) fn carry(&mut self, peaks: &[CarriedPeak]) -> Result<(), OpeningFault>
        requires opened { (s : ℕ) → Opened (books_of self.old s) }
        requires fit { list_all peak_fits peaks.now ≡ true }
        requires ascend { ascending peak_precedes peaks.now ≡ true }
        ensures noted { MatchResult result (λ _. PeaksNoted (book_joins self.old first_segment) peaks.now (books_of self.old first_segment) (books_of self.new first_segment)) (λ fault. opening_number_of fault ≡ peak_too_heavy) }
        ensures light { MatchResult result (λ _. peaks_light (book_joins self.old first_segment) peaks.now ≡ true) (λ _. peaks_light (book_joins self.old first_segment) peaks.now ≡ false) }
        ensures others { (s : ℕ) → (s ≢ first_segment) → books_of self.new s ≡ books_of self.old s }
        ensures joins { book_joins self.new ≡ book_joins self.old }
    {
        carry_peaks(&mut self.amr, peaks)
    }

    /// Ends the books and hands their sources back.
    pub(crate) fn release(self) -> Sources<A, B, C, D>
        ensures { result ≡ held_sources self }
    {
        let Four { amr, s30, mrc, eav } = self;
        Sources {
            amr: amr.release(),
            s30: s30.release(),
            mrc: mrc.release(),
            eav: eav.release(),
        }
    }

    /// Books in the segment's book. The match stands here and in `missing_in`: the books differ in type, so no value can
    /// stand for any of them.
    pub(crate) fn book_in(&mut self, segment: Segment, booking: &Booking) -> Result<(), BookFault>
        ensures booked { Booked (book_joins self.old (segment_number segment)) (books_of self.old (segment_number segment)) booking.now.meter booking.now.hour booking.now.amount result (books_of self.new (segment_number segment)) }
        ensures others { (s : ℕ) → s < most_segments → (s ≢ segment_number segment) → books_of self.new s ≡ books_of self.old s }
        ensures joins { book_joins self.new ≡ book_joins self.old }
    {
        let meter = u64::from(booking.meter);
        let hour = u64::from(booking.hour);
        let amount = u64::from(booking.amount);
        match segment {
            Segment::Amr => self.amr.book(meter, hour, amount),
            Segment::S30 => self.s30.book(meter, hour, amount),
            Segment::Mrc => self.mrc.book(meter, hour, amount),
            Segment::Eav => self.eav.book(meter, hour, amount),
        }
    }

    /// How many of the month's hours a meter of the segment still misses.
    pub(crate) fn missing_in(
        &self,
        segment: Segment,
        meter: u32,
        hours: u32,
    ) -> Result<u64, BookFault>
        ensures { Answered (ask_refusal meter) (hours - count_at (books_of self.now (segment_number segment)) meter) result }
    {
        let meter = u64::from(meter);
        let hours = u64::from(hours);
        match segment {
            Segment::Amr => self.amr.missing(meter, hours),
            Segment::S30 => self.s30.missing(meter, hours),
            Segment::Mrc => self.mrc.missing(meter, hours),
            Segment::Eav => self.eav.missing(meter, hours),
        }
    }
}

/// Opens a book over each of two sources. Want of memory hands both back.
fn open_two<S: WeightSource, T: WeightSource>(
    heap: Global,
    first: S,
    second: T,
) -> Result<(Book<S>, Book<T>), (S, T)>
    ensures opened { IfOk result (λ books. Opened (book_contents books.0) × Opened (book_contents books.1)) }
    ensures joins { MatchResult result (λ books. (S.joining books.0.source ≡ S.joining first) × (T.joining books.1.source ≡ T.joining second)) (λ left. (S.joining left.0 ≡ S.joining first) × (T.joining left.1 ≡ T.joining second)) }
{
    // Matches, since either outcome takes the other source too, which one closure alone could.
    let first = match Book::open(heap, first) {
        Ok(book) => book,
        Err((_, source)) => return Err((source, second)),
    };
    match Book::open(heap, second) {
        Ok(book) => Ok((first, book)),
        Err((_, source)) => Err((first.release(), source)),
    }
}
