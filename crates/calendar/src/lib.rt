// The Gregorian calendar of gas months, and the period that is settled.
#![tactic(auto)]

mod period;
mod rules;

pub use period::Period;

#[cfg(test)]
mod tests;
