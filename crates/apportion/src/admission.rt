// The refusals of a cut, in their order, for every rule.
ghost use Rattle.std.specs.Prelude.{◌≡◌, ◌≤◌, ◌-◌, ◌^◌, min, length, Some, None, sum, MatchResult};
ghost use Rattle.apportion.specs.Cutting.{greatest_total, number_of, refusal};

use crate::apportionment::Apportionment;
use crate::fault::CutFault;

pub const MOST_WEIGHTS: usize = 16;

const HEAVIEST: u64 = 1_000_000_000;

// The greatest total that both rules take.
pub(crate) const GREATEST_TOTAL: u64 = 3_000_000_000;

// The sum of the weights. It does not wrap: a sum that 64 bits do not hold is their greatest number.
fn weigh(weights: &[u64]) -> u64
    ensures { result ≡ min (sum weights.now) (2 ^ 64 - 1) }
{
    weights
        .iter()
        .fold(0, |whole: u64, weight| whole.saturating_add(*weight))
}

// The cut where it may go ahead; otherwise its refusal.
pub(crate) fn admit(
    greatest: u64,
    total: u64,
    weights: &[u64],
    places: usize,
) -> Result<Apportionment<'_>, CutFault>
    requires { greatest ≤ greatest_total }
    ensures { MatchResult result (λ cut. (refusal greatest total weights.now places ≡ None) × (cut.total ≡ total) × (cut.weights.now ≡ weights.now)) (λ fault. refusal greatest total weights.now places ≡ Some (number_of fault)) }
{
    if weights.len() > MOST_WEIGHTS {
        return Err(CutFault::ManyWeights);
    }
    if places < weights.len() {
        return Err(CutFault::FewPlaces);
    }
    let whole = weigh(weights);
    if whole > HEAVIEST {
        return Err(CutFault::HeavyWeights);
    }
    if total > greatest {
        return Err(CutFault::LargeTotal);
    }
    if whole == 0 && total > 0 {
        return Err(CutFault::NoWeight);
    }
    Ok(Apportionment {
        total,
        weights,
        whole,
    })
}
