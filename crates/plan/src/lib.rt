// The plan that a gas month is opened from: its period, the terms of its segments, its meters and their carried peaks.
#![tactic(auto)]

mod booking;
mod carried;
mod entry;
mod fault;
mod limits;
mod meter;
mod plan;
mod segment;
#[cfg(test)]
mod tests;

pub use booking::Booking;
pub use carried::CarriedPeak;
pub use fault::PlanFault;
pub use limits::{AMR, GREATEST_AMOUNT, MOST_METERS, MOST_SEGMENTS, MOST_STATIONS, MOST_USERS};
pub use meter::{Holder, Meter};
pub use plan::Plan;
pub use segment::{Segment, UnknownSegment};
