ghost use Rattle.std.specs.Prelude.{◌≡◌, ℕ, ◌+◌, ◌-◌, ◌^◌, max, min};
ghost use Rattle.weights.specs.Joining.{Swaps, Keeps, Covers};
ghost use Rattle.std.proofs.Common.{rules};

/// How a weight source makes one number of a weight and an amount.
pub trait Joining {
    ghost joining: { ℕ → ℕ → ℕ };

    /// The joined number; where it does not fit, the greatest number that does, which passes the greatest weight too.
    fn join(weight: u64, amount: u64) -> u64
        ensures { result ≡ min (joining weight amount) (2 ^ 64 - 1) };

    ghost swaps: { Swaps joining };

    ghost keeps: { Keeps joining };

    ghost covers: { Covers joining };
}

/// Joins by the sum.
#[derive(Drop)]
pub struct Sum;

impl Joining for Sum {
    ghost joining = { ◌+◌ };

    ghost swaps = { Prim.search rules };

    ghost keeps = { Prim.search rules };

    ghost covers = { Prim.search rules };

    fn join(weight: u64, amount: u64) -> u64 {
        weight.saturating_add(amount)
    }
}

/// Joins by the larger.
#[derive(Drop)]
pub struct Larger;

impl Joining for Larger {
    ghost joining = { max };

    ghost swaps = { Prim.search rules };

    ghost keeps = { Prim.search rules };

    ghost covers = { Prim.search rules };

    fn join(weight: u64, amount: u64) -> u64 {
        weight.max(amount)
    }
}
