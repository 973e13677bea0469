// Gives the words of a file with their numbers, and reads the next block where one is done.
ghost use Rattle.std.specs.Prelude.{◌≡◌, ◌<◌, IfOk};
ghost use Rattle.words.specs.Bytes.{last_number};
ghost use Rattle.input.specs.FileWords.{FirstGiven, FirstWord, NextGiven, Unread, to_come};

use super::FileWords;
use crate::blocks::Blocks;
use std::alloc::{AllocError, Global};
use std::io;
use std::io::Read;
use words::{WORD_BYTES, Window};

impl<R: Read> FileWords<R> {
    // The words of an input from which nothing was read yet.
    pub fn new(heap: Global, input: R) -> Result<FileWords<R>, AllocError>
    where
        R: Drop,
        ensures unread { IfOk result Unread }
        ensures bytes { IfOk result (λ file. to_come file ≡ R.remaining input) }
    {
        let blocks = Blocks::new(heap, input)?;
        Ok(FileWords {
            blocks,
            given: 0,
            number: 0,
        })
    }

    // The next word with its number, or nothing at the input's end. An input with more words than can be numbered fails, and
    // one that failed fails from then on.
    // No Iterator: it would be one more type, which borrows this one and has to end after a word that cannot be numbered.
    pub fn next(&mut self) -> io::Result<Option<(u64, u32)>>
        ensures { NextGiven self.old result self.new }
    {
        if self.number == u64::MAX {
            return Err(io::ErrorKind::FileTooLarge.into());
        }
        if let Some(entry) = self.next_in_block() {
            return Ok(Some(entry));
        }
        if !self.blocks.advance()? {
            return Ok(None);
        }
        self.given = 0;
        Ok(self.next_in_block())
    }

    // The next word of the block, or nothing where no whole word is left.
    fn next_in_block(&mut self) -> Option<(u64, u32)>
        requires { self.old.number < last_number }
        ensures given { FirstGiven self.old result self.new }
        ensures blocks { self.new.blocks ≡ self.old.blocks }
    {
        let rest = self.blocks.block().get(self.given..)?;
        let entry = first_word(rest, self.number)?;
        self.number += 1;
        self.given += WORD_BYTES;
        Some(entry)
    }
}

// The first word of these bytes, or nothing where they make no whole word.
fn first_word(bytes: &[u8], number: u64) -> Option<(u64, u32)>
    ensures { FirstWord bytes.now number result }
{
    Window::new(bytes, number).next()
}
