// A weight source that grows so fast that a few amounts pass the greatest weight.
ghost use Rattle.std.specs.Prelude.{◌+◌, ◌*◌};
ghost use Rattle.std.proofs.Common.{rules};

use weights::{Joining, WeightTable};

// Joins to the weight and a thousand times the amount.
#[derive(Drop)]
pub struct Thousandfold;

pub type Steep = WeightTable<Thousandfold>;

impl Joining for Thousandfold {
    ghost joining = { λ weight amount. weight + 1000 * amount };

    ghost swaps = { Prim.search rules };

    ghost keeps = { Prim.search rules };

    ghost covers = { Prim.search rules };

    fn join(weight: u64, amount: u64) -> u64 {
        weight.saturating_add(amount.saturating_mul(1000))
    }
}
