// Why a showing stops. A fault carries the one below it whole, with its place.
ghost use Rattle.std.specs.Prelude.{◌≡◌};
ghost use Rattle.monthfile.specs.declared.fault.ReadFault.TheVariants.{Memory};
ghost use Rattle.dumping.specs.Faults.{told};
ghost use Rattle.dumping.specs.declared.fault.DumpFault.TheVariants.{Reading, Transfer};

use monthfile::{ReadFault, Told};
use std::alloc::AllocError;
use std::io;

#[derive(Drop)]
pub enum DumpFault {
    // FILE or PLAN refuses a word or the file's end, or memory is wanting
    Reading(ReadFault),
    // the input or the output fails
    Transfer(io::Error),
}

impl DumpFault {
    // Layer, number and place of the fault; want of memory and an input or an output that fails tell none.
    pub fn told(&self) -> Option<Told>
        ensures { result ≡ told self.now }
    {
        match self {
            DumpFault::Reading(below) => below.told(),
            DumpFault::Transfer(_) => None,
        }
    }
}

impl From<ReadFault> for DumpFault {
    ghost from_gives = { λ fault r. r ≡ Reading fault };

    fn from(fault: ReadFault) -> DumpFault {
        DumpFault::Reading(fault)
    }
}

impl From<AllocError> for DumpFault {
    ghost from_gives = { λ _ r. r ≡ Reading Memory };

    fn from(error: AllocError) -> DumpFault {
        ReadFault::from(error).into()
    }
}

impl From<io::Error> for DumpFault {
    ghost from_gives = { λ error r. r ≡ Transfer error };

    fn from(error: io::Error) -> DumpFault {
        DumpFault::Transfer(error)
    }
}
