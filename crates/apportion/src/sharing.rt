// A cut by any rule, proved from what every rule owes.
ghost use Rattle.std.specs.Prelude.{◌≡◌, ◌-◌, ◌++◌, length, replicate, IfOk, sum};
ghost use Rattle.apportion.specs.Cutting.{most_weights, refusal, told};

use crate::admission::MOST_WEIGHTS;
use crate::fault::CutFault;
use crate::rule::CutRule;

// Shares a total out over as many places as a cut has at most: the shares in front and zeros beyond. What is handed out
// is the total. An array and no Vec, since a cut does not fail for want of memory.
pub fn share_out<R: CutRule>(
    rule: &R,
    total: u64,
    weights: &[u64],
) -> Result<[u64; MOST_WEIGHTS], CutFault>
    ensures answer { told result ≡ refusal R.GREATEST total weights.now most_weights }
    ensures shares { IfOk result (λ places. places ≡ R.shares rule.now total weights.now ++ replicate (most_weights - length weights.now) 0) }
    ensures handed_out { IfOk result (λ places. sum places ≡ total) }
{
    let mut places = [0; MOST_WEIGHTS];
    rule.cut(total, weights, &mut places)?;
    Ok(places)
}
