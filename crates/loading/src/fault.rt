// Why a loading stops. A fault carries the one below it whole, with its place.
ghost use Rattle.std.specs.Prelude.{◌≡◌};
ghost use Rattle.loading.specs.Faults.{told};
ghost use Rattle.loading.specs.declared.fault.LoadFault.TheVariants.{Reading, Opening, Booking, Transfer};

use month::{BookingFault, OpeningFault};
use monthfile::{Layer, Placed, ReadFault, Told};
use std::io;

#[derive(Drop)]
pub enum LoadFault {
    // FILE or PLAN refuses a word or the file's end
    Reading(ReadFault),
    // PLAN refuses to open the month
    Opening(Placed<OpeningFault>),
    // BOOK refuses a booking
    Booking(Placed<BookingFault>),
    // the input fails
    Transfer(io::Error),
}

impl LoadFault {
    // Layer, number and place of the fault; want of memory and an input that fails tell none.
    pub fn told(&self) -> Option<Told>
        ensures { result ≡ told self.now }
    {
        match self {
            LoadFault::Reading(below) => below.told(),
            // Each case names its layer and the fault below that has the number; no two are alike.
            LoadFault::Opening(below) => Some(Told {
                layer: Layer::Plan,
                number: below.fault.number()?,
                place: below.place,
            }),
            LoadFault::Booking(below) => Some(Told {
                layer: Layer::Book,
                number: below.fault.number(),
                place: below.place,
            }),
            LoadFault::Transfer(_) => None,
        }
    }
}

impl From<ReadFault> for LoadFault {
    ghost from_gives = { λ fault r. r ≡ Reading fault };

    fn from(fault: ReadFault) -> LoadFault {
        LoadFault::Reading(fault)
    }
}

impl From<Placed<OpeningFault>> for LoadFault {
    ghost from_gives = { λ placed r. r ≡ Opening placed };

    fn from(placed: Placed<OpeningFault>) -> LoadFault {
        LoadFault::Opening(placed)
    }
}

impl From<Placed<BookingFault>> for LoadFault {
    ghost from_gives = { λ placed r. r ≡ Booking placed };

    fn from(placed: Placed<BookingFault>) -> LoadFault {
        LoadFault::Booking(placed)
    }
}

impl From<io::Error> for LoadFault {
    ghost from_gives = { λ error r. r ≡ Transfer error };

    fn from(error: io::Error) -> LoadFault {
        LoadFault::Transfer(error)
    }
}
