// Numbers from words, and a line of numbers.
ghost use Rattle.std.specs.Prelude.{◌≡◌, IfOk, string_bytes, MatchResult};
ghost use Rattle.calculator.specs.Replies.{WriteAll, spaced};
ghost use Rattle.calculator.specs.Requests.{Unread};

use crate::fault::RequestFault;
use std::alloc::{AllocError, Global};
use std::fmt::Write;

// The numbers that the words write. A word that writes none that 64 bits hold makes no request. A `for` with `?` and no
// `try_collect`, since the contract says that it fails where a word does.
pub(crate) fn read_numbers(heap: Global, words: &[String]) -> Result<Vec<u64>, RequestFault>
    ensures { MatchResult result (λ v. WriteAll words.now v.items) (Unread words.now) }
{
    let mut numbers = Vec::new(heap);
    for word in words {
        numbers.push(word.as_str().parse::<u64>()?)?;
    }
    Ok(numbers)
}

// The numbers on one line, parted by blanks. They are counted because no blank stands in front of the first.
pub(crate) fn spaced_line(heap: Global, numbers: &[u64]) -> Result<String, AllocError>
    ensures { IfOk result (λ line. string_bytes line ≡ spaced numbers.now) }
{
    let mut line = String::new(heap);
    for (i, number) in numbers.iter().enumerate() {
        if i > 0 {
            line.push_str(" ")?;
        }
        write!(line, "{number}")?;
    }
    Ok(line)
}
