// The first stage of a loading: the words of the plan.
ghost use Rattle.std.specs.Prelude.{◌≡◌};
ghost use Rattle.monthfile.specs.Judging.{beginning};
ghost use Rattle.monthfile.specs.View.{standing_of};
ghost use Rattle.loading.specs.Stages.{PlanRead};

use crate::fault::LoadFault;
use input::FileWords;
use monthfile::{Brought, Reader};
use std::io::Read;

// Reads the words of the plan: up to the first select, of which it tells the place, or to the file's end.
pub(crate) fn read_plan<R: Read>(
    file: &mut FileWords<R>,
    reader: &mut Reader,
) -> Result<Option<u64>, LoadFault>
    requires { standing_of reader.old ≡ beginning }
    ensures { PlanRead file.old file.new (standing_of reader.new) result }
{
    // No `for`: `FileWords::next` says why the words of a file are no Iterator.
    while let Some((place, bits)) = file.next()? {
        if let Brought::Opening = reader.step(place, bits)? {
            return Ok(Some(place));
        }
    }
    reader.check_end(file.number(), file.left_over())?;
    Ok(None)
}
