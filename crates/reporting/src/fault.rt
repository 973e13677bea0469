// Why a report gives no missing hours. A fault carries the one below it whole.
ghost use Rattle.std.specs.Prelude.{◌≡◌};
ghost use Rattle.reporting.specs.declared.fault.ReportFault.TheVariants.{Loading, Memory, Output};

use loading::LoadFault;
use std::alloc::AllocError;
use std::io;

#[derive(Drop)]
pub enum ReportFault {
    // the file is not loaded
    Loading(LoadFault),
    // no memory for the lines
    Memory,
    // the output fails
    Output(io::Error),
}

impl From<LoadFault> for ReportFault {
    ghost from_gives = { λ fault r. r ≡ Loading fault };

    fn from(fault: LoadFault) -> ReportFault {
        ReportFault::Loading(fault)
    }
}

impl From<AllocError> for ReportFault {
    ghost from_gives = { λ _ r. r ≡ Memory };

    fn from(_e: AllocError) -> ReportFault {
        ReportFault::Memory
    }
}

impl From<io::Error> for ReportFault {
    ghost from_gives = { λ error r. r ≡ Output error };

    fn from(error: io::Error) -> ReportFault {
        ReportFault::Output(error)
    }
}
