/// How many hours a month has at most, numbered from 0.
pub const HOURS: usize = 745;

/// How many hours one word marks.
pub(crate) const WORD_HOURS: usize = 64;

/// How many words mark the hours of a month.
pub(crate) const WORDS: usize = 12;
