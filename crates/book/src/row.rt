ghost use Rattle.std.specs.Prelude.{◌≡◌, ℕ, ◌+◌, ◌<◌, false, ◌||◌, length, ◌==◌};
ghost use Rattle.book.specs.Limits.{hour_count, word_count};
ghost use Rattle.book.specs.Marks.{EndsBy, is_marked, marked_below, ones_of};

use crate::limits::{WORD_HOURS, WORDS};

/// The booked hours of one meter, one bit an hour: hour h is bit h % 64 of word h / 64.
#[derive(Clone, Copy)]
pub(crate) struct Row {
    marks: [u64; WORDS],
    ghost sized: { length marks ≡ word_count },
}

impl Row {
    /// No hour is marked.
    pub(crate) fn empty() -> Row
        ensures hours { (hour : ℕ) → is_marked result.marks hour ≡ false }
        ensures ones { ones_of result.marks ≡ 0 }
    {
        Row { marks: [0; WORDS] }
    }

    /// Whether the hour is marked.
    pub(crate) fn is_marked(&self, hour: usize) -> bool
        ensures { result ≡ is_marked self.now.marks hour }
    {
        self.marks
            .get(hour / WORD_HOURS)
            .is_some_and(|word| (word >> (hour % WORD_HOURS)) % 2 == 1)
    }

    /// Marks an hour that is not marked yet.
    pub(crate) fn mark(&mut self, hour: usize)
        requires within { hour < hour_count }
        requires free { is_marked self.old.marks hour ≡ false }
        ensures hours { (h : ℕ) → is_marked self.new.marks h ≡ (is_marked self.old.marks h || h == hour) }
        ensures ones { ones_of self.new.marks ≡ ones_of self.old.marks + 1 }
    {
        self.marks[hour / WORD_HOURS] |= 1 << (hour % WORD_HOURS);
    }

    /// How many hours are marked: the ones of the mark words.
    pub(crate) fn count(&self) -> u64
        ensures ones { result ≡ ones_of self.now.marks }
        ensures hours { (hours : ℕ) → EndsBy self.now.marks hours → result ≡ marked_below self.now.marks hours }
    {
        // A loop: as map and sum the bound on the total is not proved.
        let mut count = 0;
        for word in &self.marks {
            count += u64::from(word.count_ones());
        }
        count
    }
}
