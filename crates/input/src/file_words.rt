// The words of a month file, one by one, as they are read from an input.
ghost use Rattle.std.specs.Prelude.{◌≡◌, drop};
ghost use Rattle.words.specs.Bytes.{left_over};
ghost use Rattle.input.specs.Blocks.{block_of};

use crate::blocks::Blocks;
use std::io::Read;

mod calls;
mod questions;

#[derive(Drop)]
pub struct FileWords<R: Read> {
    blocks: Blocks<R>,
    // How many of the block's bytes have been given as words. A Window kept here would borrow the block beside it.
    given: usize,
    // The number of the next word in the file.
    number: u64,
    ghost whole: { left_over (drop given (block_of blocks)) ≡ left_over (block_of blocks) },
}
