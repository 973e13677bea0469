ghost use Rattle.std.specs.Prelude.{◌≡◌};
ghost use Rattle.weights.specs.Answers.{number_of};

/// Why a weight source refuses a call.
#[derive(Clone, Copy, PartialEq, Eq, Debug)]
pub enum WeightFault {
    /// The meter or the amount lies outside its limits.
    OutOfRange = 3,
    /// The joined number would pass the greatest weight.
    TooHeavy = 6,
}

impl WeightFault {
    /// The number that the caller is handed for this fault.
    pub fn number(&self) -> u8
        ensures { result ≡ number_of self.now }
    {
        *self as u8
    }
}
