//! An open month: the books of the four segments over any weight sources, booking and questions.
#![tactic(auto)]

mod call;
mod fault;
mod four;
mod gaps;
mod month;
mod open;
mod opening;
mod peaks;
mod run;
mod sources;

pub use call::{Answer, Call};
pub use fault::{BookingFault, OpeningFault};
pub use gaps::Gap;
pub use month::Month;
pub use open::Open;
pub use opening::Unopened;
pub use sources::Sources;
