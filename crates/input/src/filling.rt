// Fills a block from an input.
ghost use Rattle.std.specs.Prelude.{◌<◌, ◌≤◌, length, take, IfOk};
ghost use Rattle.std.specs.Io.KnownBytes.{Consumes, IsAtEnd};

use std::io;
use std::io::Read;

// Fills the block with the next bytes of the input and tells how many it got: fewer than it has room for only at the end.
// `read_to_end` over `take` promises neither that the limit holds nor that it asks for no memory.
pub(crate) fn fill<R: Read>(input: &mut R, block: &mut [u8]) -> io::Result<usize>
    ensures within { IfOk result (λ n. n ≤ length block.new) }
    ensures bytes { IfOk result (λ n. Consumes (R.remaining input.old) (R.remaining input.new) (take n block.new)) }
    ensures end { IfOk result (λ n. n < length block.new → IsAtEnd (R.remaining input.new)) }
{
    let mut held = 0;
    while held < block.len() {
        let count = input.read(&mut block[held..])?;
        if count == 0 {
            return Ok(held);
        }
        held += count;
    }
    Ok(held)
}
