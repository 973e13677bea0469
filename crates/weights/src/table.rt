ghost use Rattle.std.specs.Prelude.{◌≡◌, length};
ghost use Rattle.weights.specs.Limits.{meter_count};

use crate::fault::WeightFault;
use crate::joining::{Joining, Larger, Sum};
use crate::limits::{MAX_AMOUNT, MAX_WEIGHT, METERS};
use crate::source::WeightSource;
use std::marker::PhantomData;

/// A source that keeps one weight for each meter, and joins as J does.
#[derive(Drop)]
pub struct WeightTable<J> {
    weights: [u64; METERS],
    by: PhantomData<J>,
    ghost sized: { length weights ≡ meter_count },
}

/// The source that joins by the sum.
pub type Adding = WeightTable<Sum>;

/// The source that joins by the larger.
pub type Greatest = WeightTable<Larger>;

impl<J: Joining> WeightTable<J> {
    ghost use Rattle.weights.specs.Answers.{zero_weights};

    /// A source with every weight zero.
    pub fn new() -> WeightTable<J>
        ensures { result.weights ≡ zero_weights }
    {
        WeightTable {
            weights: [0; METERS],
            by: PhantomData,
        }
    }
}

impl<J: Joining> WeightSource for WeightTable<J> {
    ghost weights = { λ s. s.weights };

    ghost joining = { λ _. J.joining };

    ghost sized = { λ s. s.sized };

    ghost swaps = { λ _. J.swaps };

    ghost keeps = { λ _. J.keeps };

    ghost covers = { λ _. J.covers };

    fn reset(&mut self) {
        *self = WeightTable::new();
    }

    fn note(&mut self, meter: u64, amount: u64) -> Result<(), WeightFault> {
        if amount > MAX_AMOUNT {
            return Err(WeightFault::OutOfRange);
        }
        let joined = J::join(self.weight(meter)?, amount);
        if joined > MAX_WEIGHT {
            return Err(WeightFault::TooHeavy);
        }
        self.weights[meter as usize] = joined;
        Ok(())
    }

    fn weight(&self, meter: u64) -> Result<u64, WeightFault> {
        self.weights
            .get(meter as usize)
            .copied()
            .ok_or(WeightFault::OutOfRange)
    }
}
