ghost use Rattle.std.specs.Prelude.{◌≡◌};
ghost use Rattle.month.specs.OfMonth.{IsReset};

use weights::WeightSource;

/// The weight sources of the four segments. Clauses on them name the four bounds, which their type does not show. Four type
/// parameters, and no trait of four types: whoever puts four sources together would owe a type and an impl.
#[derive(Drop)]
pub struct Sources<A, B, C, D> {
    pub amr: A,
    pub s30: B,
    pub mrc: C,
    pub eav: D,
}

impl<A: WeightSource, B: WeightSource, C: WeightSource, D: WeightSource> Sources<A, B, C, D> {
    /// Makes every weight zero.
    pub(crate) fn reset(&mut self)
        ensures { IsReset A.WeightSource B.WeightSource C.WeightSource D.WeightSource self.old self.new }
    {
        self.amr.reset();
        self.s30.reset();
        self.mrc.reset();
        self.eav.reset();
    }
}
