// The running cut: a share is the step of the rounded running total.
ghost use Rattle.std.specs.Prelude.{◌≡◌, ◌+◌, ◌-◌, ◌*◌, ◌/◌, ◌≤◌};
ghost use Rattle.apportion.specs.Cutting.{greatest_total, heaviest};
ghost use Rattle.apportion.specs.RunningCut.{running_cut};
ghost use Rattle.apportion.specs.Steps.{by_steps};

use crate::admission::{GREATEST_TOTAL, admit};
use crate::apportionment::Apportionment;
use crate::fault::CutFault;
use crate::rule::CutRule;

#[derive(Clone, Copy)]
pub struct RunningCut;

impl CutRule for RunningCut {
    const GREATEST: u64 = GREATEST_TOTAL;

    ghost GREATEST = { greatest_total };

    ghost shares = { λ _. running_cut };

    ghost fair = { λ _ total weights _ _ _. by_steps total weights };

    fn cut(&self, total: u64, weights: &[u64], places: &mut [u64]) -> Result<(), CutFault> {
        let cut = admit(Self::GREATEST, total, weights, places.len())?;
        let mut before = 0;
        // By index, and not `places.iter_mut().zip(..)`: tried, and of what is written through a zip a proof knows nothing.
        for (i, weight) in cut.weights.iter().enumerate() {
            places[i] = cut.rise(before, *weight);
            before += *weight;
        }
        Ok(())
    }
}

impl Apportionment<'_> {
    // What a weight adds to the rounded portion of the weights before it.
    fn rise(&self, before: u64, weight: u64) -> u64
        requires { before + weight ≤ heaviest }
        ensures { result ≡ self.now.total * (before + weight) / self.now.whole - self.now.total * before / self.now.whole }
    {
        self.portion(before + weight) - self.portion(before)
    }
}
