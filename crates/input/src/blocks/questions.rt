// What is known of the block that was read last.
ghost use Rattle.std.specs.Prelude.{◌≡◌, ◌%◌, length};
ghost use Rattle.words.specs.Bytes.{word_bytes};
ghost use Rattle.input.specs.Blocks.{block_of, words_read};

use super::Blocks;
use std::io::Read;
use words::WORD_BYTES;

impl<R: Read> Blocks<R> {
    // The bytes of the block that was read last.
    pub fn block(&self) -> &[u8]
        ensures { result.now ≡ block_of self.now }
    {
        self.bytes.as_slice()
    }

    // The number of its first word in the file.
    pub fn first(&self) -> u64
        ensures { result ≡ self.now.first }
    {
        self.first
    }

    // How many whole words have been read.
    pub fn words(&self) -> u64
        ensures { result ≡ words_read self.now }
    {
        (self.bytes.len() as u64 / WORD_BYTES as u64).saturating_add(self.first)
    }

    // How many bytes at the end of the block make no whole word.
    pub fn left_over(&self) -> usize
        ensures { result ≡ length (block_of self.now) % word_bytes }
    {
        self.bytes.len() % WORD_BYTES
    }
}
