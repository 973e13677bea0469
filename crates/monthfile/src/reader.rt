// The reader of a month file, and where it stands.
ghost use Rattle.std.specs.Prelude.{◌≡◌};

use crate::phase::Phase;
use plan::Plan;

#[derive(Drop)]
pub struct Reader {
    pub(crate) phase: Phase,
    pub(crate) plan: Plan,
}

impl Reader {
    // Where the reader stands between two words.
    pub fn phase(&self) -> Phase
        ensures { result ≡ self.now.phase }
    {
        self.phase
    }
}
