// A window over a block of a month file: its words, with their numbers in the whole file.
ghost use Rattle.std.specs.Prelude.{◌≡◌, length};
ghost use Rattle.std.specs.Iterator.{item_count};
ghost use Rattle.words.specs.Bytes.{left_over};
ghost use Rattle.words.specs.Windows.{entries, Shown, InFile};

use crate::word::WORD_BYTES;

#[derive(Drop)]
pub struct Window<'a> {
    rest: &'a [u8],
    number: u64,
}

impl<'a> Window<'a> {
    // The window over a block whose first word has this number in the file.
    pub fn new(block: &'a [u8], first: u64) -> Window<'a>
        ensures bytes { result.rest.now ≡ block.now }
        ensures number { result.number ≡ first }
        ensures in_file { InFile block.now first result }
    {
        Window {
            rest: block,
            number: first,
        }
    }

    // The number of the next word; at the end of a block, that of the first word of the next block.
    pub fn number(&self) -> u64
        ensures { result ≡ self.now.number }
    {
        self.number
    }

    // How many bytes at the end of the block make no whole word.
    pub fn left_over(&self) -> usize
        ensures { result ≡ length (left_over self.now.rest.now) }
    {
        self.rest.len() % WORD_BYTES
    }
}

impl Iterator for Window<'_> {
    type Item = (u64, u32);

    ghost next_gives = { Shown };

    ghost remaining = { item_count entries };

    // The next word with its number, or nothing where no whole word is left.
    fn next(&mut self) -> Option<(u64, u32)> {
        let (bytes, rest) = self.rest.split_first_chunk::<WORD_BYTES>()?;
        let entry = (self.number, u32::from_be_bytes(*bytes));
        *self = Window::new(rest, self.number.saturating_add(1));
        Some(entry)
    }
}
