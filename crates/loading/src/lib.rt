// Loads a month file into an open month: its words are judged, the month opens at the first select or at the file's end, and
// each amount is booked as its word is judged.
#![tactic(auto)]

mod bookings;
mod fault;
mod left;
mod loads;
mod plan_words;

pub use fault::LoadFault;
pub use left::{Left, Stopped};
pub use loads::load;
