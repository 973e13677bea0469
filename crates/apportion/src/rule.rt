// A cutting rule, by the shares that it gives.
ghost use Rattle.std.specs.Prelude.{◌≡◌, ℕ, List};
ghost use Rattle.apportion.specs.Cutting.{Fair, told, outcome};

use crate::fault::CutFault;

pub trait CutRule {
    // The greatest total that the rule takes.
    const GREATEST: u64;

    ghost GREATEST: { ℕ };

    // The shares of a total, one for each weight: the rule's meaning.
    ghost shares: { Self → ℕ → List ℕ → List ℕ };

    // Cuts the total by the weights into the first places.
    fn cut(&self, total: u64, weights: &[u64], places: &mut [u64]) -> Result<(), CutFault>
        ensures answer { told result ≡ (outcome GREATEST (shares self.now) total weights.now places.old).answer }
        ensures places { places.new ≡ (outcome GREATEST (shares self.now) total weights.now places.old).places };

    ghost fair: { (rule : Self) → Fair GREATEST (shares rule) };
}
