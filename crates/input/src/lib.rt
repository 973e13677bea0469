// The bytes of a month file from an input: block by block, or word by word.
#![tactic(auto)]

mod blocks;
mod file_words;
mod filling;

pub use blocks::Blocks;
pub use file_words::FileWords;
