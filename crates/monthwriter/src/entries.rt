// Puts the meters and the carried peaks of a plan, each of which is one word.
ghost use Rattle.std.specs.Prelude.{◌≡◌, ◌++◌, map};
ghost use Rattle.plan.specs.OfPlan.{contents};
ghost use Rattle.words.specs.declared.word.Word.{Word};
ghost use Rattle.monthwriter.specs.Placing.{RoomFor, WordsPut, meter_word, peak_word};

use crate::placing::Output;
use plan::{CarriedPeak, Meter, Plan};
use words::Word;

// What has a word of its own. The entries and `Word` are other crates' types, so that `From` cannot be implemented here.
trait PlanEntry {
    ghost in_file: { Self → Word };

    fn word(&self) -> Word
        ensures { result ≡ in_file self.now };
}

impl PlanEntry for Meter {
    ghost in_file = { meter_word };

    fn word(&self) -> Word {
        Word::Meter {
            segment: self.segment,
            user: self.user,
            station: self.station,
            meter: self.number,
        }
    }
}

impl PlanEntry for CarriedPeak {
    ghost in_file = { peak_word };

    fn word(&self) -> Word {
        Word::Carried {
            meter: self.meter,
            amount: self.amount,
        }
    }
}

pub(crate) fn put_meters_and_peaks(plan: &Plan, out: &mut Output<'_>)
    requires { RoomFor out.old (map meter_word (contents plan.now).meters ++ map peak_word (contents plan.now).carried) }
    ensures { WordsPut out.old (map meter_word (contents plan.now).meters ++ map peak_word (contents plan.now).carried) out.new }
{
    put_entries(plan.meters(), out);
    put_entries(plan.carried(), out);
}

fn put_entries<E: PlanEntry>(entries: &[E], out: &mut Output<'_>)
    requires { RoomFor out.old (map E.in_file entries.now) }
    ensures { WordsPut out.old (map E.in_file entries.now) out.new }
{
    for entry in entries {
        out.put(entry.word());
    }
}
