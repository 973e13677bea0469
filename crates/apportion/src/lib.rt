// Cuts a total into whole shares by weights: the trait of cutting rules, two rules, and a cut by any rule.
#![tactic(auto)]

mod admission;
mod apportionment;
mod fault;
mod largest_remainder;
mod rule;
mod running_cut;
mod sharing;
#[cfg(test)]
mod tests;

pub use admission::MOST_WEIGHTS;
pub use fault::CutFault;
pub use largest_remainder::LargestRemainder;
pub use rule::CutRule;
pub use running_cut::RunningCut;
pub use sharing::share_out;
