// Largest remainder: whole parts first, then the units left over by the size of what was cut off.
ghost use Rattle.std.specs.Prelude.{◌≡◌, ◌<◌, length};
ghost use Rattle.apportion.specs.Cutting.{greatest_total};
ghost use Rattle.apportion.specs.LargestRemainder.{ahead, largest_remainder, left_over, precedes, remainder, share_by_remainder};
ghost use Rattle.apportion.specs.Rounding.{by_remainder};

use crate::admission::{GREATEST_TOTAL, admit};
use crate::apportionment::Apportionment;
use crate::fault::CutFault;
use crate::rule::CutRule;

#[derive(Clone, Copy)]
pub struct LargestRemainder;

impl CutRule for LargestRemainder {
    const GREATEST: u64 = GREATEST_TOTAL;

    ghost GREATEST = { greatest_total };

    ghost shares = { λ _. largest_remainder };

    ghost fair = { λ _ total weights _ _ _. by_remainder total weights };

    #[tactic(auto, using(crate::proofs::Placing::filled_more))]
    fn cut(&self, total: u64, weights: &[u64], places: &mut [u64]) -> Result<(), CutFault> {
        let cut = admit(Self::GREATEST, total, weights, places.len())?;
        let left = cut.left_over();
        for (position, place) in places[..cut.weights.len()].iter_mut().enumerate() {
            *place = cut.share_at(position, left);
        }
        Ok(())
    }
}

// A position is a bare index: a type of its own would have to hold the weights as well, and be no plainer.
impl Apportionment<'_> {
    // The whole part, and one unit more where fewer positions precede than units are left over.
    fn share_at(&self, position: usize, left: u64) -> u64
        requires within { position < length self.now.weights.now }
        requires over { left ≡ left_over self.now.total self.now.weights.now }
        ensures { result ≡ share_by_remainder self.now.total self.now.weights.now position }
    {
        let part = self.portion(self.weights[position]);
        if (self.count_ahead(position) as u64) < left {
            part + 1
        } else {
            part
        }
    }

    // The units that the whole parts leave over.
    fn left_over(&self) -> u64
        ensures { result ≡ left_over self.now.total self.now.weights.now }
    {
        let parts: u64 = self
            .weights
            .iter()
            .map(|weight| self.portion(*weight))
            .sum();
        self.total - parts
    }

    fn count_ahead(&self, position: usize) -> usize
        requires { position < length self.now.weights.now }
        ensures { result ≡ ahead self.now.total self.now.weights.now position }
    {
        let own = self.remainder(position);
        (0..self.weights.len())
            .map(|other| usize::from(self.precedes(other, position, own)))
            .sum()
    }

    // A larger remainder precedes; of equal remainders the one at the lower position does. The position's own remainder is
    // handed in, so that it is worked out once for all others.
    fn precedes(&self, other: usize, position: usize, own: u64) -> bool
        requires other { other < length self.now.weights.now }
        requires own { own ≡ remainder self.now.total self.now.weights.now position }
        ensures { result ≡ precedes self.now.total self.now.weights.now other position }
    {
        (own, other) < (self.remainder(other), position)
    }

    // What rounding down cut off, times the whole.
    fn remainder(&self, position: usize) -> u64
        requires { position < length self.now.weights.now }
        ensures { result ≡ remainder self.now.total self.now.weights.now position }
    {
        let weight = self.weights[position];
        self.total * weight - self.whole * self.portion(weight)
    }
}
