// Why the writing of a month file is refused.
ghost use Rattle.std.specs.Prelude.{◌≡◌};
ghost use Rattle.monthwriter.specs.Refusals.{number_of};

#[derive(Clone, Copy, PartialEq, Eq, Debug)]
pub enum WriteFault {
    // the plan has not all its segments
    NotFull = 2,
    // a booking that a file cannot hold
    OutsideLimits = 3,
    // the memory is shorter than the file
    ShortMemory = 10,
}

impl WriteFault {
    // The number that the caller is told.
    pub fn number(self) -> u8
        ensures { result ≡ number_of self }
    {
        self as u8
    }
}
