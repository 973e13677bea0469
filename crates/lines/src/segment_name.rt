// The name of a segment.
ghost use Rattle.std.specs.Prelude.{Some};
ghost use Rattle.lines.specs.Lines.{segment_name};

use plan::{Segment, UnknownSegment};
use std::fmt;

// A segment by its number.
#[derive(Clone, Copy)]
pub struct SegmentName(pub u32);

impl fmt::Display for SegmentName {
    ghost output = { λ s. Some (segment_name s.0) };

    fn fmt<W: fmt::Write>(&self, f: &mut fmt::Formatter<W>) -> fmt::Result {
        match Segment::try_from(self.0) {
            Ok(Segment::Amr) => write!(f, "AMR"),
            Ok(Segment::S30) => write!(f, "S30"),
            Ok(Segment::Mrc) => write!(f, "MRC"),
            Ok(Segment::Eav) => write!(f, "EAV"),
            Err(UnknownSegment(number)) => write!(f, "{number}"),
        }
    }
}
