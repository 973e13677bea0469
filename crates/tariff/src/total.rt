// The total of a segment.
ghost use Rattle.std.specs.Prelude.{◌≡◌, ◌*◌, ◌≤◌, IfOk};
ghost use Rattle.tariff.specs.Faults.{told};
ghost use Rattle.tariff.specs.Limits.{greatest_capacity};
ghost use Rattle.tariff.specs.Totals.{thousandths, segment_total, LeastNotBelow, total_refusal};

use crate::fault::TariffFault;
use crate::terms::GREATEST_FACTOR;

// In kWh/h.
const GREATEST_PEAK: u64 = 1_280_000;

const THOUSANDTHS: u64 = 1_000;

// The capacity to be cut over the users of a segment with this peak, in kWh/h.
pub fn segment_total(peak: u64, factor: u32) -> Result<u64, TariffFault>
    ensures answer { told result ≡ total_refusal peak factor }
    ensures value { IfOk result (λ total. total ≡ segment_total peak factor) }
    ensures least { IfOk result (LeastNotBelow (peak * factor) thousandths) }
    ensures bound { IfOk result (λ total. total ≤ greatest_capacity) }
{
    if peak > GREATEST_PEAK || factor > GREATEST_FACTOR {
        return Err(TariffFault::OutsideLimits);
    }
    Ok((peak * factor as u64).div_ceil(THOUSANDTHS))
}
