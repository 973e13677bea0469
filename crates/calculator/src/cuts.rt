// Requests for a cut.
ghost use Rattle.std.specs.Prelude.{◌<◌, length, drop, slice_index};
ghost use Rattle.apportion.specs.Cutting.{most_weights, refusal};
ghost use Rattle.calculator.specs.Requests.{Replies};

use crate::fault::RequestFault;
use crate::numbers::spaced_line;
use apportion::{CutRule, share_out};
use std::alloc::Global;

// The shares under a rule: of a total, by at least one weight.
pub(crate) fn cut_by<R: CutRule>(
    heap: Global,
    rule: &R,
    numbers: &[u64],
) -> Result<String, RequestFault>
    ensures { Replies (1 < length numbers.now) (refusal R.GREATEST (slice_index numbers.now 0) (drop 1 numbers.now) most_weights) (R.shares rule.now (slice_index numbers.now 0) (drop 1 numbers.now)) result }
{
    match numbers {
        [total, weights @ ..] if !weights.is_empty() => {
            let places = share_out(rule, *total, weights)?;
            Ok(spaced_line(heap, &places[..weights.len()])?)
        }
        _ => Err(RequestFault::BadUsage),
    }
}
