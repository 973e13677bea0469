// The lines that programs print: those of a month file's records, of a fault and of a meter's missing hours.
#![tactic(auto)]

mod fault_line;
mod gap_line;
mod record;
mod record_line;
mod segment_name;
mod texts;

pub use fault_line::FaultLine;
pub use gap_line::GapLine;
pub use record::Record;
pub use segment_name::SegmentName;
pub use texts::gap_text;
