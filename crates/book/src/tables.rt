ghost use Rattle.std.specs.Prelude.{◌≡◌, length};
ghost use Rattle.weights.specs.Limits.{meter_count};
ghost use Rattle.book.specs.Limits.{hour_count};

use crate::arrays::element;
use crate::limits::HOURS;
use crate::row::Row;
use std::alloc::{AllocError, Global};
use weights::METERS;

/// The hour sums of a segment and the booked hours of its meters.
#[derive(Drop)]
pub(crate) struct Tables {
    sums: Box<[u64; HOURS]>,
    rows: Box<[Row; METERS]>,
    ghost hours: { length sums.value ≡ hour_count },
    ghost meters: { length rows.value ≡ meter_count },
}

impl Tables {
    ghost use Rattle.std.specs.Borrow.{sem};
    ghost use Rattle.std.specs.Prelude.{ℕ, ◌+◌, ◌^◌, ◌<◌, ◌≤◌, ◌||◌, false, IfOk, MatchOption, ◌==◌, slice_get, slice_index, slice_set, Some};
    ghost use Rattle.weights.specs.Answers.{zero_weights};
    ghost use Rattle.book.specs.Answers.{Opened};
    ghost use Rattle.book.specs.Contents.{contents_of, marks_of, words_of};
    ghost use Rattle.book.specs.Lending.{LendsRow};
    ghost use Rattle.book.specs.Marks.{EndsBy, is_marked, marked_below, ones_of};

    /// No hour is marked, and every sum is zero.
    pub(crate) fn empty(heap: Global) -> Result<Tables, AllocError>
        ensures { IfOk result (λ tables. Opened (contents_of tables zero_weights)) }
    {
        let sums = Box::new(heap, [0; HOURS])?;
        let rows = Box::new(heap, [Row::empty(); METERS])?;
        Ok(Tables { sums, rows })
    }

    /// Whether the meter has the hour.
    pub(crate) fn is_marked(&self, meter: usize, hour: usize) -> bool
        ensures { result ≡ is_marked (words_of self.now meter) hour }
    {
        self.rows.get(meter).is_some_and(|row| row.is_marked(hour))
    }

    /// How many hours the meter has, if there is such a meter.
    pub(crate) fn count(&self, meter: usize) -> Option<u64>
        ensures { MatchOption result (meter_count ≤ meter) (λ n. (meter < meter_count) × (n ≡ ones_of (words_of self.now meter)) × ((hours : ℕ) → EndsBy (words_of self.now meter) hours → n ≡ marked_below (words_of self.now meter) hours)) }
    {
        self.rows.get(meter).map(|row| row.count())
    }

    /// The sum of the hour: zero past the last hour.
    pub(crate) fn sum(&self, hour: usize) -> u64
        ensures { result ≡ slice_index self.now.sums.value hour }
    {
        self.sums.get(hour).copied().unwrap_or(0)
    }

    /// Enters an amount of an hour that the meter does not have yet.
    pub(crate) fn enter(&mut self, meter: usize, hour: usize, amount: u64)
        requires meter_within { meter < meter_count }
        requires hour_within { hour < hour_count }
        requires free { is_marked (words_of self.old meter) hour ≡ false }
        requires fits { slice_index self.old.sums.value hour + amount < 2 ^ 64 }
        ensures row { marks_of self.new ≡ slice_set (marks_of self.old) meter (words_of self.new meter) }
        ensures hours { (h : ℕ) → is_marked (words_of self.new meter) h ≡ (is_marked (words_of self.old meter) h || h == hour) }
        ensures ones { ones_of (words_of self.new meter) ≡ ones_of (words_of self.old meter) + 1 }
        ensures sums { self.new.sums.value ≡ slice_set self.old.sums.value hour (slice_index self.old.sums.value hour + amount) }
    {
        self.row(meter).mark(hour);
        self.sums[hour] += amount;
    }

    /// The meter's row, lent to be changed.
    fn row(&mut self, meter: usize) -> &mut Row
        requires { meter < meter_count }
        ensures* writes_back { sem 𝓛 (LendsRow self.entry meter result) }
        ensures value { slice_get self.old.rows.value meter ≡ Some result.now }
    {
        element(&mut self.rows, meter)
    }
}
