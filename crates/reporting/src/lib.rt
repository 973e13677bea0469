// Reports on a month file: how many hours each assigned meter still misses, or the first fault.
#![tactic(auto)]

mod fault;
mod report;

pub use fault::ReportFault;
pub use report::report_gaps;
