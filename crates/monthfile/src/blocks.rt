// Reads a file block by block.
ghost use Rattle.std.specs.Prelude.{◌≡◌, true, [], ◌∷◌, is_some, IfErr, None, MatchResult};
ghost use Rattle.plan.specs.OfPlan.{contents};
ghost use Rattle.words.specs.Bytes.{words_of};
ghost use Rattle.monthfile.specs.Faults.{told};
ghost use Rattle.monthfile.specs.Reading.{BlockByBlock, BlockRead, end_fault};
ghost use Rattle.monthfile.specs.View.{standing_of};

use crate::brought::Brought;
use crate::fault::{FileFault, ReadFault};
use crate::judging::refused;
use crate::phase::Phase;
use crate::reader::Reader;
use plan::{Booking, Plan};
use words::Window;

impl Reader {
    // Reads one word and adds its booking to the list, if it brings one.
    fn read_word(
        &mut self,
        place: u64,
        bits: u32,
        bookings: &mut Vec<Booking>,
    ) -> Result<(), ReadFault>
        ensures { BlockRead (standing_of self.old) place (bits ∷ []) bookings.old.items result bookings.new.items (standing_of self.new) }
    {
        bookings.reserve(1)?;
        if let Brought::Offtake(booking) = self.step(place, bits)? {
            bookings.push_reserved(booking);
        }
        Ok(())
    }

    // Reads the words of a block, the first of them at this place, and adds their bookings to the list, up to the first
    // fault. Block and place come apart, as callers have them; the struct of both is the window.
    pub fn read_block(
        &mut self,
        block: &[u8],
        first: u64,
        bookings: &mut Vec<Booking>,
    ) -> Result<(), ReadFault>
        ensures read { BlockRead (standing_of self.old) first (words_of block.now) bookings.old.items result bookings.new.items (standing_of self.new) }
        ensures blocks { BlockByBlock }
    {
        for (place, bits) in Window::new(block, first) {
            self.read_word(place, bits, bookings)?;
        }
        Ok(())
    }

    // Judges the file's end: after this many whole words, with this many bytes left over. Callers have the counts apart.
    pub fn check_end(&self, words: u64, left_over: usize) -> Result<(), ReadFault>
        ensures answer { MatchResult result (λ _. end_fault (standing_of self.now) words left_over ≡ None) (λ fault. told fault ≡ end_fault (standing_of self.now) words left_over) }
        ensures tells { IfErr result (λ fault. is_some (told fault) ≡ true) }
    {
        match self.phase {
            Phase::Meters | Phase::Peaks | Phase::Booked(_) if left_over == 0 => Ok(()),
            _ => Err(refused(FileFault::CutShort, words)),
        }
    }

    // The plan, where the file may end here.
    pub fn finish(self, words: u64, left_over: usize) -> Result<Plan, ReadFault>
        ensures answer { MatchResult result (λ plan. (end_fault (standing_of self) words left_over ≡ None) × (contents plan ≡ contents self.plan)) (λ fault. told fault ≡ end_fault (standing_of self) words left_over) }
        ensures tells { IfErr result (λ fault. is_some (told fault) ≡ true) }
    {
        self.check_end(words, left_over)?;
        Ok(self.plan)
    }
}
