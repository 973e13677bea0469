ghost use Rattle.book.specs.Contents.{marks_of};
ghost use Rattle.book.specs.Marks.{Bounded};

use crate::fault::BookFault;
use crate::limits::HOURS;
use crate::tables::Tables;
use std::alloc::{AllocError, Global};
use weights::{MAX_AMOUNT, METERS, WeightSource};

/// The book of one segment, over a weight source of any kind.
#[derive(Drop)]
pub struct Book<S: WeightSource> {
    source: S,
    tables: Tables,
    ghost bounded: { Bounded (marks_of tables) tables.sums.value },
}

impl<S: WeightSource> Book<S> {
    ghost use Rattle.std.specs.Prelude.{◌≡◌, ◌-◌, ◌≤◌, IfErr, IfOk, MatchResult, slice_index};
    ghost use Rattle.weights.specs.Answers.{ask_refusal, zero_weights};
    ghost use Rattle.book.specs.Answers.{Answered, Booked, Carried, Opened};
    ghost use Rattle.book.specs.Contents.{count_at, lacked_below, marked_at, sum_at, words_at};
    ghost use Rattle.book.specs.Faults.{IsOfSource};
    ghost use Rattle.book.specs.Limits.{greatest_sum};
    ghost use Rattle.book.specs.Marks.{EndsBy};
    ghost use Rattle.book.specs.OfBook.{book_contents};
    ghost use Rattle.book.specs.declared.fault.BookFault.TheVariants.{OutOfRange, Source};
    ghost use Rattle.weights.specs.declared.fault.WeightFault.TheVariants.{TooHeavy};

    /// Opens a book over the source, which is reset. Want of memory hands the source back, reset.
    pub fn open(heap: Global, mut source: S) -> Result<Book<S>, (AllocError, S)>
        ensures opened { MatchResult result (λ book. Opened (book_contents book)) (λ e. S.weights e.1 ≡ zero_weights) }
        ensures joining { MatchResult result (λ book. S.joining book.source ≡ S.joining source) (λ e. S.joining e.1 ≡ S.joining source) }
    {
        source.reset();
        // A match, since either outcome takes the source, which one closure alone could.
        match Tables::empty(heap) {
            Ok(tables) => Ok(Book { source, tables }),
            Err(refused) => Err((refused, source)),
        }
    }

    /// Notes a meter's carried peak in the source. Refused as the source refuses it: with 3 for a meter above 63 or an
    /// amount above 20,000, then with 6 where the weight would pass 15,000,000.
    pub fn carry(&mut self, meter: u64, amount: u64) -> Result<(), BookFault>
        ensures carried { Carried (S.joining self.old.source) (book_contents self.old) meter amount result (book_contents self.new) }
        ensures joining { S.joining self.new.source ≡ S.joining self.old.source }
        ensures fault { IfErr result IsOfSource }
    {
        Ok(self.source.note(meter, amount)?)
    }

    /// Books an amount of a meter in an hour. Refused with 3 for a meter above 63, an hour above 744 or an amount above
    /// 20,000, then with 5 for an hour that the meter already has, then with 6 where the weight would pass 15,000,000.
    pub fn book(&mut self, meter: u64, hour: u64, amount: u64) -> Result<(), BookFault>
        ensures booked { Booked (S.joining self.old.source) (book_contents self.old) meter hour amount result (book_contents self.new) }
        ensures joining { S.joining self.new.source ≡ S.joining self.old.source }
        ensures fault { IfErr result (λ fault. IsOfSource fault → fault ≡ Source TooHeavy) }
    {
        if meter >= METERS as u64 || hour >= HOURS as u64 || amount > MAX_AMOUNT {
            return Err(BookFault::OutOfRange);
        }
        if self.tables.is_marked(meter as usize, hour as usize) {
            return Err(BookFault::AlreadyBooked);
        }
        self.source.note(meter, amount)?;
        self.tables.enter(meter as usize, hour as usize, amount);
        Ok(())
    }

    /// How many of a month's hours the meter still misses, counted from its marks: where it has no hour past the month,
    /// the hours below its end that it does not have. Refused with 3 for a meter above 63.
    pub fn missing(&self, meter: u64, hours: u64) -> Result<u64, BookFault>
        ensures answer { Answered (ask_refusal meter) (hours - count_at (book_contents self.now) meter) result }
        ensures lacked { IfOk result (λ n. EndsBy (words_at (book_contents self.now) meter) hours → n ≡ lacked_below (book_contents self.now) meter hours) }
        ensures fault { IfErr result (λ fault. fault ≡ OutOfRange) }
    {
        let count = self
            .tables
            .count(meter as usize)
            .ok_or(BookFault::OutOfRange)?;
        Ok(hours.saturating_sub(count))
    }

    /// Whether the meter has the hour.
    pub fn is_marked(&self, meter: u64, hour: u64) -> bool
        ensures { result ≡ marked_at (book_contents self.now) meter hour }
    {
        self.tables.is_marked(meter as usize, hour as usize)
    }

    /// The sum of the hour: zero for an hour above 744.
    pub fn sum(&self, hour: u64) -> u64
        ensures value { result ≡ sum_at (book_contents self.now) hour }
        ensures bound { result ≤ greatest_sum }
    {
        self.tables.sum(hour as usize)
    }

    /// The meter's weight. Refused with 3 for a meter above 63.
    pub fn weight(&self, meter: u64) -> Result<u64, BookFault>
        ensures answer { Answered (ask_refusal meter) (slice_index (S.weights self.now.source) meter) result }
        ensures fault { IfErr result IsOfSource }
    {
        Ok(self.source.weight(meter)?)
    }

    /// Ends the book and hands its source back.
    pub fn release(self) -> S
        ensures { result ≡ self.source }
    {
        let Book { source, tables } = self;
        source
    }
}
