// From the words of a request to its reply.
ghost use Rattle.calculator.specs.Requests.{AnsweredBy, Asks, Named};

use crate::cuts::cut_by;
use crate::fault::RequestFault;
use crate::numbers::read_numbers;
use crate::prices::{fee_by, total_by};
use apportion::{LargestRemainder, RunningCut};
use std::alloc::Global;

// The line that answers a request by its name and its numbers.
fn reply_by_name(heap: Global, name: &str, numbers: &[u64]) -> Result<String, RequestFault>
    ensures { AnsweredBy (Named name.now numbers.now) result }
{
    match name {
        "largest" => cut_by(heap, &LargestRemainder, numbers),
        "running" => cut_by(heap, &RunningCut, numbers),
        "total" => total_by(heap, numbers),
        "fee" => fee_by(heap, numbers),
        _ => Err(RequestFault::BadUsage),
    }
}

// The line that answers the words.
pub fn reply_to(heap: Global, words: &[String]) -> Result<String, RequestFault>
    ensures { AnsweredBy (Asks words.now) result }
{
    let [name, rest @ ..] = words else {
        return Err(RequestFault::BadUsage);
    };
    let numbers = read_numbers(heap, rest)?;
    reply_by_name(heap, name.as_str(), &numbers)
}
