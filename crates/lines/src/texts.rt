// The lines of gaps, each ended by a line break.
ghost use Rattle.std.specs.Prelude.{◌≡◌, IfOk, string_bytes};
ghost use Rattle.lines.specs.Lines.{gap_text};

use crate::gap_line::GapLine;
use month::Gap;
use std::alloc::Global;
use std::fmt;

pub fn gap_text(heap: Global, gaps: &[Gap]) -> Result<String, fmt::Error>
    ensures { IfOk result (λ text. string_bytes text ≡ gap_text gaps.now) }
{
    let mut text = String::new(heap);
    for gap in gaps {
        let line = GapLine(*gap);
        writeln!(text, "{line}")?;
    }
    Ok(text)
}
