// Reads a whole file that is held in memory.
ghost use Rattle.std.specs.Prelude.{◌≡◌, List, IfOk, None, MatchResult};
ghost use Rattle.plan.specs.Contents.{Contents};
ghost use Rattle.plan.specs.OfPlan.{contents};
ghost use Rattle.monthfile.specs.Faults.{told};
ghost use Rattle.monthfile.specs.File.{file_of};
ghost use Rattle.monthfile.specs.Inverse.{Fileable, FileAndReading};
ghost use Rattle.monthfile.specs.Whole.{TellsFirst};

use crate::fault::ReadFault;
use crate::reader::Reader;
use plan::{Booking, Plan};
use std::alloc::Global;
use words::WORD_BYTES;

// The plan and the bookings of a file, or the file's first fault.
pub fn read(heap: Global, bytes: &[u8]) -> Result<(Plan, Vec<Booking>), ReadFault>
    ensures file { IfOk result (λ given. Fileable (contents given.0) given.1.items × (bytes.now ≡ file_of (contents given.0) given.1.items)) }
    ensures back { (p : Contents) (bs : List Booking) → Fileable p bs → bytes.now ≡ file_of p bs → MatchResult result (λ given. (contents given.0 ≡ p) × (given.1.items ≡ bs)) (λ fault. told fault ≡ None) }
    ensures fault { TellsFirst bytes.now result }
    ensures inverse { FileAndReading }
{
    let mut reader = Reader::new(heap);
    let mut bookings = Vec::new(heap);
    reader.read_block(bytes, 0, &mut bookings)?;
    let words = bytes.len() as u64 / WORD_BYTES as u64;
    let plan = reader.finish(words, bytes.len() % WORD_BYTES)?;
    Ok((plan, bookings))
}
