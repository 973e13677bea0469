// Why a cut is refused.
ghost use Rattle.std.specs.Prelude.{◌≡◌};
ghost use Rattle.apportion.specs.Cutting.{number_of};

// Each has the number that the caller is told.
#[derive(Clone, Copy, PartialEq, Eq, Debug)]
pub enum CutFault {
    // more than 16 weights
    ManyWeights = 3,
    // fewer places than weights
    FewPlaces = 10,
    // the weights add up to more than 1,000,000,000
    HeavyWeights = 6,
    // the total is above the greatest that the rule takes
    LargeTotal = 8,
    // a total above zero, and no weight above zero
    NoWeight = 9,
}

impl CutFault {
    pub fn number(self) -> u8
        ensures { result ≡ number_of self }
    {
        self as u8
    }
}
