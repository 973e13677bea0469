// A shipper's calculator: what a request on the command line asks for, and the line that answers it.
#![tactic(auto)]

mod cuts;
mod fault;
mod fees;
mod numbers;
mod prices;
mod request;
#[cfg(test)]
mod tests;

pub use fault::RequestFault;
pub use request::reply_to;
