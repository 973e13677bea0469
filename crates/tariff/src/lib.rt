// The terms of a segment: its service, tariff and factor; its total and the fees of capacity.
#![tactic(auto)]

mod fault;
mod fees;
mod quotient;
mod service;
mod terms;
#[cfg(test)]
mod tests;
mod total;

pub use fault::TariffFault;
pub use fees::fee;
pub use service::{Service, UnknownService};
pub use terms::Terms;
pub use total::segment_total;
