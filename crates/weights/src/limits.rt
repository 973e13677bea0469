/// How many meters a segment has, numbered from 0.
pub const METERS: usize = 64;

/// The greatest amount, in kWh, of one meter in one hour.
pub const MAX_AMOUNT: u64 = 20_000;

/// The greatest weight that a meter may come to.
pub const MAX_WEIGHT: u64 = 15_000_000;
