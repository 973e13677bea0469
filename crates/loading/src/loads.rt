// Loads a month file into an open month.
ghost use Rattle.month.specs.OfMonth.{source_joins};
ghost use Rattle.loading.specs.Loading.{HandsBack, Loads, LoadsFile};

use crate::bookings::Bookings;
use crate::left::{Left, Stopped};
use crate::plan_words::read_plan;
use input::FileWords;
use month::{Month, Open, Sources};
use monthfile::{Reader, at_place};
use std::alloc::Global;
use std::io::Read;
use weights::WeightSource;

// The month of the file whose words are given, with every booking of it accepted; or the first fault, and what the words
// before it made.
pub fn load<R: Read, A: WeightSource, B: WeightSource, C: WeightSource, D: WeightSource>(
    heap: Global,
    file: &mut FileWords<R>,
    sources: Sources<A, B, C, D>,
) -> Result<Open<Month<A, B, C, D>>, Stopped<A, B, C, D>>
    ensures loads { Loads A.WeightSource B.WeightSource C.WeightSource D.WeightSource (source_joins A.WeightSource B.WeightSource C.WeightSource D.WeightSource sources) file.old result file.new }
    ensures back { LoadsFile A.WeightSource B.WeightSource C.WeightSource D.WeightSource (source_joins A.WeightSource B.WeightSource C.WeightSource D.WeightSource sources) file.old result }
    ensures handed { HandsBack A.WeightSource B.WeightSource C.WeightSource D.WeightSource sources result }
{
    let mut reader = Reader::new(heap);
    let read = read_plan(file, &mut reader);
    let plan = reader.take_plan(heap);
    // A match, since each outcome takes the plan and the sources, which one closure alone could.
    match read {
        Ok(Some(select)) => {
            let month = at_place(Open::open(heap, plan, sources), select)?;
            Bookings { reader, month }.book_rest(file)
        }
        Ok(None) => Ok(at_place(Open::open(heap, plan, sources), file.number())?),
        Err(fault) => Err(Stopped {
            fault,
            left: Left::Planned { plan, sources },
        }),
    }
}
