// What is known of the words that were given.
ghost use Rattle.std.specs.Prelude.{◌≡◌};
ghost use Rattle.input.specs.FileWords.{left_over};

use super::FileWords;
use std::io::Read;

impl<R: Read> FileWords<R> {
    // How many words have been given.
    pub fn number(&self) -> u64
        ensures { result ≡ self.now.number }
    {
        self.number
    }

    // How many bytes at the end of the block make no whole word.
    pub fn left_over(&self) -> usize
        ensures { result ≡ left_over self.now }
    {
        self.blocks.left_over()
    }
}
