// What a fault tells: the layer that found it, its number, and its place in the file.
ghost use Rattle.std.specs.Prelude.{◌≡◌};
ghost use Rattle.monthfile.specs.Faults.{told};

use crate::fault::ReadFault;

// A layer that judges a month file.
#[derive(Clone, Copy, PartialEq, Eq, Debug)]
pub enum Layer {
    File,
    Plan,
    Book,
}

#[derive(Clone, Copy, PartialEq, Eq, Debug)]
pub struct Told {
    pub layer: Layer,
    pub number: u8,
    // The number of the word, counted from 0, or after the end the count of whole words.
    pub place: u64,
}

impl ReadFault {
    // Layer, number and place of the fault; want of memory tells none.
    pub fn told(self) -> Option<Told>
        ensures { result ≡ told self }
    {
        match self {
            ReadFault::File(placed) => Some(Told {
                layer: Layer::File,
                number: placed.fault.number(),
                place: placed.place,
            }),
            ReadFault::Plan(placed) => Some(Told {
                layer: Layer::Plan,
                number: placed.fault.number()?,
                place: placed.place,
            }),
            ReadFault::Memory => None,
        }
    }
}
