// What a loading that stops leaves.
ghost use Rattle.std.specs.Prelude.{◌≡◌};
ghost use Rattle.loading.specs.Left.{held_by, plan_of, stopped_by};

use crate::fault::LoadFault;
use month::{Month, Open, Sources, Unopened};
use monthfile::Placed;
use plan::Plan;
use weights::WeightSource;

// The month so far, with every booking before the fault.
pub enum Left<A: WeightSource, B: WeightSource, C: WeightSource, D: WeightSource> {
    // it is not open: its plan as far as it was read, and the sources
    Planned {
        plan: Plan,
        sources: Sources<A, B, C, D>,
    },
    Opened(Open<Month<A, B, C, D>>),
}

pub struct Stopped<A: WeightSource, B: WeightSource, C: WeightSource, D: WeightSource> {
    pub fault: LoadFault,
    pub left: Left<A, B, C, D>,
}

impl<A: WeightSource, B: WeightSource, C: WeightSource, D: WeightSource> Left<A, B, C, D> {
    // Gives the month up and hands back its plan and its sources.
    pub fn abandon(self) -> (Plan, Sources<A, B, C, D>)
        ensures { (result.0 ≡ plan_of self) × (result.1 ≡ held_by self) }
    {
        match self {
            Left::Planned { plan, sources } => (plan, sources),
            Left::Opened(month) => month.abandon(),
        }
    }
}

impl<A: WeightSource, B: WeightSource, C: WeightSource, D: WeightSource> From<
    Placed<Unopened<A, B, C, D>>,
> for Stopped<A, B, C, D> {
    ghost from_gives = { λ refused r. r ≡ stopped_by refused };

    // A refused opening leaves what it hands back.
    fn from(refused: Placed<Unopened<A, B, C, D>>) -> Stopped<A, B, C, D> {
        let Placed {
            fault: Unopened {
                fault,
                plan,
                sources,
            },
            place,
        } = refused;
        Stopped {
            fault: Placed { fault, place }.into(),
            left: Left::Planned { plan, sources },
        }
    }
}
