// A month file as it is read from an input: the block that was read last, and its place in the file.
ghost use Rattle.std.specs.Prelude.{◌≡◌, ◌%◌, ◌≤◌, [], vec_capacity, vec_items, vec_len};
ghost use Rattle.std.specs.Option.{ForSome};
ghost use Rattle.words.specs.Bytes.{word_bytes};
ghost use Rattle.input.specs.Limits.{block_bytes};
ghost use Rattle.input.specs.declared.blocks.Progress.TheVariants.{AtEnd, Failed, Reading};

use std::io::Read;
use words::WORD_BYTES;

mod calls;
mod questions;

// How many bytes a block has. Only the last may have fewer.
const BLOCK: usize = 16_384 * WORD_BYTES;

// How far the input was read. An input that failed is not one that ended.
#[derive(Drop)]
enum Progress {
    // it may have more: the block is full, or none was read yet
    Reading,
    AtEnd,
    // no more is read of it
    Failed,
}

#[derive(Drop)]
pub struct Blocks<R: Read> {
    input: R,
    // The block, with room for a whole one from the start: no read asks for memory.
    bytes: Vec<u8>,
    // The number of the block's first word in the file.
    first: u64,
    // No Option<R>: `advance` would have to drop the input, and so ask `R: Drop`.
    progress: Progress,
    ghost roomy: { block_bytes ≤ vec_capacity bytes },
    ghost inside: { vec_len bytes ≤ block_bytes },
    ghost whole: { progress ≡ Reading → vec_len bytes % word_bytes ≡ 0 },
    ghost ended: { progress ≡ AtEnd → ForSome (R.remaining input) (λ rest. rest ≡ []) },
    ghost broken: { progress ≡ Failed → vec_items bytes ≡ [] },
}
