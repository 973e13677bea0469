// The line of a meter that misses hours, without its line break.
ghost use Rattle.std.specs.Prelude.{Some};
ghost use Rattle.lines.specs.Lines.{gap_line};

use crate::segment_name::SegmentName;
use month::Gap;
use std::fmt;

#[derive(Clone, Copy)]
pub struct GapLine(pub Gap);

impl fmt::Display for GapLine {
    ghost output = { λ l. Some (gap_line l.0) };

    fn fmt<W: fmt::Write>(&self, f: &mut fmt::Formatter<W>) -> fmt::Result {
        let Gap {
            segment,
            meter,
            hours,
        } = self.0;
        let name = SegmentName(segment);
        write!(f, "MISSING {name} {meter} {hours}")
    }
}
