// The limits of a plan. Numbers count from 0.
use crate::segment::Segment;

pub const MOST_SEGMENTS: u32 = Segment::ALL.len() as u32;

// Of one segment.
pub const MOST_METERS: u32 = 64;

pub const MOST_USERS: u32 = 16;

pub const MOST_STATIONS: u32 = 16;

// The kWh of one meter in one hour.
pub const GREATEST_AMOUNT: u32 = 20_000;

// The segment whose meters carry a peak over from earlier months, by its number, as the calls take segments.
pub const AMR: u32 = Segment::Amr as u32;
