// What a word that was taken brings: one of three cases, so an Option round two of them would be nested.
use plan::Booking;

#[derive(Clone, Copy, PartialEq, Eq, Debug)]
pub enum Brought {
    Nothing,
    // The first select: the plan is complete, and the month may open.
    Opening,
    Offtake(Booking),
}
