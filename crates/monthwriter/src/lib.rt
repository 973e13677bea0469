// Writes the month file of a plan and its bookings into memory that the caller lends.
#![tactic(auto)]

mod bookings;
mod checks;
mod entries;
mod fault;
mod head;
mod month_file;
mod placing;
#[cfg(test)]
mod tests;
mod writing;

pub use fault::WriteFault;
pub use writing::write;
