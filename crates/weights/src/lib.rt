//! Weight sources: how the amounts of a month become one weight for each meter of a segment.
#![tactic(auto)]

mod fault;
mod joining;
mod limits;
mod notes;
mod source;
mod table;
#[cfg(test)]
mod tests;

pub use fault::WeightFault;
pub use joining::{Joining, Larger, Sum};
pub use limits::{MAX_AMOUNT, MAX_WEIGHT, METERS};
pub use notes::note_each;
pub use source::WeightSource;
pub use table::{Adding, Greatest, WeightTable};
