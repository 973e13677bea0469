// Reads a month file: judges each word, fills the plan and hands the bookings on.
#![tactic(auto)]

mod blocks;
mod brought;
mod fault;
mod judging;
mod phase;
mod reader;
mod telling;
mod whole;

pub use brought::Brought;
pub use fault::{FileFault, Placed, ReadFault, at_place};
pub use judging::LAST_HOUR;
pub use phase::Phase;
pub use reader::Reader;
pub use telling::{Layer, Told};
pub use whole::read;
