// The second stage of a loading: the words that follow the first select, to the file's end.
ghost use Rattle.loading.specs.Stages.{AfterWords, BooksRead, RestBooked, WordBooked, held};

use crate::fault::LoadFault;
use crate::left::{Left, Stopped};
use input::FileWords;
use month::{Month, Open};
use monthfile::{Brought, Reader, at_place};
use std::io::Read;
use weights::WeightSource;

// The month that takes the bookings, and the reader that the first select left.
pub(crate) struct Bookings<A: WeightSource, B: WeightSource, C: WeightSource, D: WeightSource> {
    pub(crate) reader: Reader,
    pub(crate) month: Open<Month<A, B, C, D>>,
}

impl<A: WeightSource, B: WeightSource, C: WeightSource, D: WeightSource> Bookings<A, B, C, D> {
    // Books the rest of the file, and hands the month out.
    pub(crate) fn book_rest<R: Read>(
        mut self,
        file: &mut FileWords<R>,
    ) -> Result<Open<Month<A, B, C, D>>, Stopped<A, B, C, D>>
        ensures { AfterWords self (λ joins words. RestBooked A.WeightSource B.WeightSource C.WeightSource D.WeightSource joins words file.old file.new result) }
    {
        // A match, since either outcome takes the month, which one closure alone could.
        let booked = self.book_words(file);
        let Bookings { reader: _, month } = self;
        match booked {
            Ok(()) => Ok(month),
            Err(fault) => Err(Stopped {
                fault,
                left: Left::Opened(month),
            }),
        }
    }

    // Books the amounts of the words, to the file's end.
    fn book_words<R: Read>(&mut self, file: &mut FileWords<R>) -> Result<(), LoadFault>
        ensures { AfterWords self.old (λ joins words. BooksRead joins words file.old file.new (held self.new) result) }
    {
        // No `for`: `FileWords::next` says why the words of a file are no Iterator.
        while let Some((place, bits)) = file.next()? {
            self.book_word(place, bits)?;
        }
        Ok(self.reader.check_end(file.number(), file.left_over())?)
    }

    fn book_word(&mut self, place: u64, bits: u32) -> Result<(), LoadFault>
        ensures { AfterWords self.old (λ joins words. WordBooked joins words place bits result self.new.reader.phase (held self.new)) }
    {
        if let Brought::Offtake(booking) = self.reader.step(place, bits)? {
            at_place(self.month.book(booking), place)?;
        }
        Ok(())
    }
}
