// The memory that a file is put into, word by word.
ghost use Rattle.std.specs.Prelude.{◌≡◌, [], ◌∷◌};
ghost use Rattle.monthwriter.specs.Placing.{RoomFor, WordsPut};

use words::{WORD_BYTES, Word};

// The caller's memory, and the place of the next word in it.
// Not the rest of the memory alone, since the contracts speak of all of it, with the words in it.
#[derive(Drop)]
pub(crate) struct Output<'a> {
    memory: &'a mut [u8],
    next: usize,
}

impl<'a> Output<'a> {
    pub(crate) fn new(memory: &'a mut [u8]) -> Output<'a>
        ensures same_reference { result.memory.ghost_name ≡ memory.entry.ghost_name }
        ensures untouched { result.memory.now ≡ memory.old }
        ensures front { result.next ≡ 0 }
    {
        Output { memory, next: 0 }
    }

    // How many bytes the words have that were put.
    pub(crate) fn length(&self) -> usize
        ensures { result ≡ self.now.next }
    {
        self.next
    }

    // Puts the word, highest byte first.
    pub(crate) fn put(&mut self, word: Word)
        requires { RoomFor self.old (word ∷ []) }
        ensures { WordsPut self.old (word ∷ []) self.new }
    {
        let bits = word.encode().unwrap();
        let end = self.next + WORD_BYTES;
        self.memory[self.next..end].copy_from_slice(&bits.to_be_bytes());
        self.next = end;
    }
}
