// Requests for a total and for a fee.
ghost use Rattle.std.specs.Prelude.{◌≡◌, length};
ghost use Rattle.calculator.specs.Requests.{Replies, fee_asked, refusal_of, result_of, total_asked};

use crate::fault::RequestFault;
use crate::fees::FeeRequest;
use std::alloc::Global;
use tariff::segment_total;

// A segment's total: of a peak and a factor.
pub(crate) fn total_by(heap: Global, numbers: &[u64]) -> Result<String, RequestFault>
    ensures { Replies (length numbers.now ≡ 2) (refusal_of (total_asked numbers.now)) (result_of (total_asked numbers.now)) result }
{
    let [peak, factor] = *numbers else {
        return Err(RequestFault::BadUsage);
    };
    let total = segment_total(peak, u32::try_from(factor)?)?;
    Ok(total.to_string(heap)?)
}

// A fee: of a year, a month, hours, a service, a tariff and a capacity.
pub(crate) fn fee_by(heap: Global, numbers: &[u64]) -> Result<String, RequestFault>
    ensures { Replies (length numbers.now ≡ 6) (refusal_of (fee_asked numbers.now)) (result_of (fee_asked numbers.now)) result }
{
    let [year, month, hours, service, tariff, capacity] = *numbers else {
        return Err(RequestFault::BadUsage);
    };
    let request = FeeRequest {
        year: u32::try_from(year)?,
        month: u32::try_from(month)?,
        hours: u32::try_from(hours)?,
        service: u32::try_from(service)?,
        tariff: u32::try_from(tariff)?,
        capacity,
    };
    let cents = request.fee(heap)?;
    Ok(cents.to_string(heap)?)
}
