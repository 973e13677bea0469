// Reads an input block by block.
ghost use Rattle.std.specs.Prelude.{◌≡◌, IfOk};
ghost use Rattle.input.specs.Blocks.{Advanced, Begun, unread};

use super::{BLOCK, Blocks, Progress};
use crate::filling::fill;
use std::alloc::{AllocError, Global};
use std::io;
use std::io::Read;

impl<R: Read> Blocks<R> {
    // An input from which no block was read yet.
    pub fn new(heap: Global, input: R) -> Result<Blocks<R>, AllocError>
    where
        R: Drop,
        ensures begun { IfOk result Begun }
        ensures bytes { IfOk result (λ blocks. unread blocks ≡ R.remaining input) }
    {
        let bytes = Vec::with_capacity(heap, BLOCK)?;
        Ok(Blocks {
            input,
            bytes,
            first: 0,
            progress: Progress::Reading,
        })
    }

    // Reads the next block, and tells whether there was one to read. An input that failed fails from then on.
    // It lends no block: what is left would be known only once the loan ends, by a longer contract.
    pub fn advance(&mut self) -> io::Result<bool>
        ensures { Advanced self.old result self.new }
    {
        match self.progress {
            Progress::Reading => {}
            Progress::AtEnd => return Ok(false),
            Progress::Failed => return Err(io::ErrorKind::Other.into()),
        }
        self.first = self.words();
        self.bytes.resize(BLOCK, 0).unwrap();
        // A match: with `inspect_err` it stays open how long the block is then.
        match fill(&mut self.input, self.bytes.as_mut_slice()) {
            Ok(held) => {
                self.bytes.truncate(held);
                if held < BLOCK {
                    self.progress = Progress::AtEnd;
                }
                Ok(true)
            }
            Err(error) => {
                self.bytes.clear();
                self.progress = Progress::Failed;
                Err(error)
            }
        }
    }
}
