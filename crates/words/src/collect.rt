// All words of a block at once.
ghost use Rattle.std.specs.Prelude.{IfOk};
ghost use Rattle.words.specs.Bytes.{Collected};

use crate::window::Window;
use std::alloc::{AllocError, Global};

// The words of a block with their numbers, the first of which is given.
pub fn collect_words(heap: Global, block: &[u8], first: u64) -> Result<Vec<(u64, u32)>, AllocError>
    ensures { IfOk result (λ v. Collected block.now first v.items) }
{
    Window::new(block, first).collect(heap)
}
