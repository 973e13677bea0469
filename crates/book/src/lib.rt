//! A segment's book: which hours of each meter are booked, the sum of each hour, and a weight source of any kind.
#![tactic(auto)]

mod arrays;
mod book;
mod fault;
mod limits;
mod row;
mod tables;
#[cfg(test)]
mod tests;

pub use book::Book;
pub use fault::BookFault;
pub use limits::HOURS;
