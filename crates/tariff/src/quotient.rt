// A quotient of whole numbers, kept exact until it is rounded.
ghost use Rattle.std.specs.Prelude.{◌≡◌, ◌≤◌};
ghost use Rattle.tariff.specs.Bounds.{Payable};
ghost use Rattle.tariff.specs.Fees.{NearestHalvesUp, nearest};
ghost use Rattle.tariff.specs.Limits.{greatest_fee};

pub(crate) struct Quotient {
    pub(crate) dividend: u64,
    pub(crate) divisor: u64,
}

impl Quotient {
    pub(crate) fn nearest(self) -> u64
        requires { Payable self }
        ensures value { result ≡ nearest self }
        ensures law { NearestHalvesUp self result }
        ensures bound { result ≤ greatest_fee }
    {
        let Quotient { dividend, divisor } = self;
        (2 * dividend + divisor) / (2 * divisor)
    }
}
