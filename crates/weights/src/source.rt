ghost use Rattle.std.specs.Prelude.{◌≡◌, ℕ, List, length};
ghost use Rattle.weights.specs.Answers.{Asked, Noted, zero_weights};
ghost use Rattle.weights.specs.Joining.{Swaps, Keeps, Covers};
ghost use Rattle.weights.specs.Limits.{meter_count};

use crate::fault::WeightFault;

/// Keeps one weight for each of the 64 meters of a segment. Its meaning is these weights and its joining, which makes
/// one number of a weight and an amount and which no call changes: a clause of each call, since a ghost field would be asked
/// of every source's type.
pub trait WeightSource {
    ghost weights: { Self → List ℕ };

    ghost joining: { Self → ℕ → ℕ → ℕ };

    /// Makes every weight zero.
    fn reset(&mut self)
        ensures weights { weights self.new ≡ zero_weights }
        ensures joining { joining self.new ≡ joining self.old };

    /// Replaces the meter's weight by the joining of that weight and the amount. Refused with 3 for a meter above 63 or an
    /// amount above 20,000, then with 6 where the joined number would pass 15,000,000; a refusal alters nothing.
    fn note(&mut self, meter: u64, amount: u64) -> Result<(), WeightFault>
        ensures noted { Noted (joining self.old) (weights self.old) meter amount result (weights self.new) }
        ensures joining { joining self.new ≡ joining self.old };

    /// The meter's weight. Refused with 3 for a meter above 63.
    fn weight(&self, meter: u64) -> Result<u64, WeightFault>
        ensures { Asked (weights self.now) meter result };

    ghost sized: { (source : Self) → length (weights source) ≡ meter_count };

    ghost swaps: { (source : Self) → Swaps (joining source) };

    ghost keeps: { (source : Self) → Keeps (joining source) };

    ghost covers: { (source : Self) → Covers (joining source) };
}
