// A cut that may go ahead, and the quotient that both rules round down.
ghost use Rattle.std.specs.Prelude.{◌≡◌, ◌*◌, ◌/◌, ◌≤◌, sum};
ghost use Rattle.apportion.specs.Cutting.{greatest_total, heaviest};

// A total, the weights that it is cut by, and what these add up to.
#[derive(Clone, Copy)]
pub(crate) struct Apportionment<'a> {
    pub(crate) total: u64,
    pub(crate) weights: &'a [u64],
    pub(crate) whole: u64,
    ghost small: { total ≤ greatest_total },
    ghost weighed: { whole ≡ sum weights.now },
    ghost light: { whole ≤ heaviest },
}

impl Apportionment<'_> {
    // total × weight ÷ whole, rounded down, and nothing where the whole is zero. The product stays below 2^62.
    pub(crate) fn portion(&self, weight: u64) -> u64
        requires { weight ≤ heaviest }
        ensures { result ≡ self.now.total * weight / self.now.whole }
    {
        if self.whole == 0 {
            0
        } else {
            self.total * weight / self.whole
        }
    }
}
