ghost use Rattle.std.specs.Prelude.{◌≡◌};
ghost use Rattle.month.specs.OfMonth.{IsReset};

use crate::fault::OpeningFault;
use crate::sources::Sources;
use plan::Plan;
use weights::WeightSource;

/// What a refused opening hands back.
#[derive(Drop)]
pub struct Unopened<A, B, C, D> {
    pub fault: OpeningFault,
    pub plan: Plan,
    pub sources: Sources<A, B, C, D>,
}

impl<A: WeightSource, B: WeightSource, C: WeightSource, D: WeightSource> Unopened<A, B, C, D> {
    /// Hands back the plan, and the sources reset.
    pub(crate) fn reset(
        fault: OpeningFault,
        plan: Plan,
        mut sources: Sources<A, B, C, D>,
    ) -> Unopened<A, B, C, D>
        ensures kept { (result.fault ≡ fault) × (result.plan ≡ plan) }
        ensures sources { IsReset A.WeightSource B.WeightSource C.WeightSource D.WeightSource sources result.sources }
    {
        sources.reset();
        Unopened {
            fault,
            plan,
            sources,
        }
    }
}
