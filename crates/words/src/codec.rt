// Words from bits and back.
ghost use Rattle.std.specs.Prelude.{◌≡◌, ◌+◌, ◌*◌, ◌^◌, ◌<◌, Some};
ghost use Rattle.std.specs.Option.{SomeIff};
ghost use Rattle.words.specs.Kinds.{number_of};
ghost use Rattle.words.specs.Layout.{encoded, FieldsFit, Decoded};

use crate::kind::Kind;
use crate::layout::*;
use crate::segment_word::SegmentWord;
use crate::spot::Spot;
use crate::word::Word;

impl Word {
    // The word with these bits, or nothing where the kind is unknown or a spare bit is set.
    pub fn decode(bits: u32) -> Option<Word>
        ensures decoded { Decoded bits result }
        ensures back { (word : Word) → FieldsFit word → encoded word ≡ bits → result ≡ Some word }
    {
        match Kind::try_from(KIND.of(bits)).ok()? {
            Kind::Period if PERIOD_SPARE.of(bits) == 0 => Some(Word::Period {
                year: YEAR.of(bits),
                month: MONTH.of(bits),
                hours: HOURS.of(bits),
            }),
            Kind::Segment if SEGMENT_SPARE.of(bits) == 0 => Some(Word::Segment(SegmentWord {
                segment: SEGMENT_NUMBER.of(bits),
                service: SERVICE.of(bits),
                tariff: TARIFF.of(bits),
            })),
            Kind::Factor if FACTOR_SPARE.of(bits) == 0 => Some(Word::Factor {
                segment: SEGMENT_NUMBER.of(bits),
                factor: PER_MILLE.of(bits),
            }),
            Kind::Meter if METER_SPARE.of(bits) == 0 => Some(Word::Meter {
                segment: SEGMENT_NUMBER.of(bits),
                user: USER.of(bits),
                station: STATION.of(bits),
                meter: METER_NUMBER.of(bits),
            }),
            Kind::Select if SELECT_SPARE.of(bits) == 0 => Some(Word::Select(Spot {
                segment: SEGMENT_NUMBER.of(bits),
                meter: METER_NAMED.of(bits),
                hour: HOUR.of(bits),
            })),
            Kind::Amount if AMOUNT_SPARE.of(bits) == 0 => Some(Word::Amount {
                amount: KWH.of(bits),
            }),
            Kind::Carried if CARRIED_HIGH.of(bits) == 0 && CARRIED_LOW.of(bits) == 0 => Some(
                Word::Carried {
                    meter: METER_NAMED.of(bits),
                    amount: KWH.of(bits),
                },
            ),
            _ => None,
        }
    }

    // The bits of the word, or nothing where a field does not fit its bits.
    pub fn encode(self) -> Option<u32>
        ensures { SomeIff result (FieldsFit self) (encoded self) }
    {
        match self {
            Word::Period { year, month, hours } => {
                let bits = YEAR.put(Kind::Period.bits(), year)?;
                let bits = MONTH.put(bits, month)?;
                HOURS.put(bits, hours)
            }
            Word::Segment(given) => {
                let bits = SERVICE.put(of_segment(Kind::Segment, given.segment)?, given.service)?;
                TARIFF.put(bits, given.tariff)
            }
            Word::Factor { segment, factor } => PER_MILLE.put(
                of_segment(Kind::Factor, segment)?,
                factor,
            ),
            Word::Meter {
                segment,
                user,
                station,
                meter,
            } => {
                let bits = USER.put(of_segment(Kind::Meter, segment)?, user)?;
                let bits = STATION.put(bits, station)?;
                METER_NUMBER.put(bits, meter)
            }
            Word::Select(spot) => {
                let bits = METER_NAMED.put(of_segment(Kind::Select, spot.segment)?, spot.meter)?;
                HOUR.put(bits, spot.hour)
            }
            Word::Amount { amount } => KWH.put(Kind::Amount.bits(), amount),
            Word::Carried { meter, amount } => {
                let bits = METER_NAMED.put(Kind::Carried.bits(), meter)?;
                KWH.put(bits, amount)
            }
        }
    }
}

// The bits of a kind and a segment, with nothing below.
fn of_segment(kind: Kind, segment: u32) -> Option<u32>
    ensures { SomeIff result (segment < 2 ^ 2) (number_of kind * 2 ^ 28 + segment * 2 ^ 26) }
{
    SEGMENT_NUMBER.put(kind.bits(), segment)
}
