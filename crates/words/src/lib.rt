// The words of a month file: their kinds and bit fields, and the window over a block of them.
#![tactic(auto)]

mod codec;
mod collect;
mod field;
mod kind;
mod layout;
mod segment_word;
mod spot;
#[cfg(test)]
mod tests;
mod window;
mod word;

pub use collect::collect_words;
pub use segment_word::SegmentWord;
pub use spot::Spot;
pub use window::Window;
pub use word::{WORD_BYTES, Word};
