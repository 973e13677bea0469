// Shows a month file from an input: a line for each record that its words complete, and the line of its first fault.
#![tactic(auto)]

mod dumps;
mod fault;
mod taking;
#[cfg(test)]
mod tests;

pub use dumps::dump;
pub use fault::DumpFault;
