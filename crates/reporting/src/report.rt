// Writes the report on a month file.
ghost use Rattle.month.specs.OfMonth.{source_joins, state_of};
ghost use Rattle.month.specs.Stands.{AsStands};
ghost use Rattle.loading.specs.Faults.{told};
ghost use Rattle.reporting.specs.Reporting.{FaultWritten, GapsWritten, Reports};

use crate::fault::ReportFault;
use input::FileWords;
use lines::{FaultLine, gap_text};
use loading::{LoadFault, Stopped, load};
use month::{Month, Open, Sources};
use std::alloc::Global;
use std::io;
use std::io::{Read, Write};
use weights::WeightSource;

// Loads the file that the input holds, and writes a line for each assigned meter with the hours that it still misses; at a fault
// its line alone.
pub fn report_gaps<
    R: Read + Drop,
    W: Write,
    A: WeightSource + Drop,
    B: WeightSource + Drop,
    C: WeightSource + Drop,
    D: WeightSource + Drop,
>(heap: Global, input: R, sources: Sources<A, B, C, D>, out: &mut W) -> Result<(), ReportFault>
    ensures { Reports R.Read A.WeightSource B.WeightSource C.WeightSource D.WeightSource (source_joins A.WeightSource B.WeightSource C.WeightSource D.WeightSource sources) (R.remaining input) (W.contents out.old) result (W.contents out.new) }
{
    let mut file = FileWords::new(heap, input)?;
    // A match, since either outcome takes what the loading made.
    match load(heap, &mut file, sources) {
        Ok(month) => {
            let written = write_gaps(heap, &month, out);
            let _ = month.abandon();
            written
        }
        Err(Stopped { fault, left }) => {
            let _ = left.abandon();
            write_fault(&fault, out)?;
            Err(fault.into())
        }
    }
}

// Writes the lines of the month's gaps.
fn write_gaps<W: Write, A: WeightSource, B: WeightSource, C: WeightSource, D: WeightSource>(
    heap: Global,
    month: &Open<Month<A, B, C, D>>,
    out: &mut W,
) -> Result<(), ReportFault>
    ensures { AsStands (state_of month.now.0) (λ terms bookings. GapsWritten terms bookings (W.contents out.old) result (W.contents out.new)) }
{
    let gaps = month.gaps(heap)?;
    let text = gap_text(heap, gaps.as_slice()).map_err(|_| ReportFault::Memory)?;
    out.write_all(text.as_bytes())?;
    Ok(())
}

// Writes the line of the fault, if it tells one.
fn write_fault<W: Write>(fault: &LoadFault, out: &mut W) -> io::Result<()>
    ensures { FaultWritten (told fault.now) (W.contents out.old) result (W.contents out.new) }
{
    if let Some(told) = fault.told() {
        let line = FaultLine(told);
        writeln!(out, "{line}")?;
    }
    Ok(())
}
