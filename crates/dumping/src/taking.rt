// Takes a file word by word, and tells the record that each completes.
ghost use Rattle.std.specs.Prelude.{◌≡◌};
ghost use Rattle.std.specs.Option.{option_map};
ghost use Rattle.monthfile.specs.Judging.{call_of};
ghost use Rattle.monthfile.specs.View.{standing_of};
ghost use Rattle.dumping.specs.Records.{WordTaken, plan_record};

use lines::Record;
use monthfile::{Brought, Phase, ReadFault, Reader};
use plan::{CarriedPeak, Meter};
use words::Word;

// The record of the plan call that a word completes in this phase, if it completes one.
fn plan_record(phase: Phase, word: Word) -> Option<Record>
    ensures { result ≡ option_map plan_record (call_of phase word) }
{
    match (word, phase) {
        (Word::Period { year, month, hours }, _) => Some(Record::Period { year, month, hours }),
        // A segment is complete with its factor. No `From` makes the entries here and below: words and plan do not know one
        // another.
        (Word::Factor { factor, .. }, Phase::Terms(given)) => Some(Record::Terms {
            segment: given.segment,
            service: given.service,
            tariff: given.tariff,
            factor,
        }),
        (
            Word::Meter {
                segment,
                user,
                station,
                meter,
            },
            _,
        ) => Some(Record::Assigned(Meter {
            segment,
            number: meter,
            user,
            station,
        })),
        (Word::Carried { meter, amount }, _) => {
            Some(Record::Carried(CarriedPeak { meter, amount }))
        }
        _ => None,
    }
}

// Judges the word at this place, and tells the record that it completes, if it completes one.
pub(crate) fn take_word(
    reader: &mut Reader,
    place: u64,
    bits: u32,
) -> Result<Option<Record>, ReadFault>
    ensures { WordTaken (standing_of reader.old) place bits result (standing_of reader.new) }
{
    let phase = reader.phase();
    match reader.step(place, bits)? {
        Brought::Offtake(booking) => Ok(Some(Record::Booked(booking))),
        _ => Ok(Word::decode(bits).and_then(|word| plan_record(phase, word))),
    }
}
