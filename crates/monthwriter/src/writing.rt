// Writes the file of a plan and its bookings.
ghost use Rattle.std.specs.Prelude.{length, take, IfOk};
ghost use Rattle.plan.specs.OfPlan.{contents};
ghost use Rattle.monthfile.specs.Inverse.{FileAndReading};
ghost use Rattle.monthwriter.specs.Written.{FileWritten, ReadsBack, TakesFile};

use crate::checks::check;
use crate::fault::WriteFault;
use crate::placing::Output;
use plan::{Booking, Plan};

// Writes the file to the front of the memory and answers its length, or the first fault, with the memory untouched. The file
// is read back to the plan and the bookings; and with the reader's rules, a file and its reading are inverse.
pub fn write(plan: &Plan, bookings: &[Booking], out: &mut [u8]) -> Result<usize, WriteFault>
    ensures answer { FileWritten (contents plan.now) bookings.now out.old result out.new }
    ensures back { IfOk result (λ size. ReadsBack (contents plan.now) bookings.now (take size out.new)) }
    ensures takes { TakesFile (contents plan.now) bookings.now (length out.old) result }
    ensures inverse { FileAndReading }
{
    let file = check(plan, bookings, out.len())?;
    let mut output = Output::new(out);
    file.put(&mut output);
    Ok(output.length())
}
