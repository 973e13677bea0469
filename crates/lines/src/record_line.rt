// The line of a record, without its line break.
ghost use Rattle.std.specs.Prelude.{Some};
ghost use Rattle.lines.specs.Lines.{record_line};

use crate::record::Record;
use crate::segment_name::SegmentName;
use plan::{Booking, CarriedPeak, Meter};
use std::fmt;

impl fmt::Display for Record {
    ghost output = { λ r. Some (record_line r) };

    fn fmt<W: fmt::Write>(&self, f: &mut fmt::Formatter<W>) -> fmt::Result {
        match *self {
            Record::Period { year, month, hours } => {
                write!(f, "PERIOD {year}-{month:02} {hours}")
            }
            Record::Terms {
                segment,
                service,
                tariff,
                factor,
            } => {
                let name = SegmentName(segment);
                write!(f, "SEGMENT {name} {service} {tariff} {factor}")
            }
            Record::Assigned(
                Meter {
                    segment,
                    number,
                    user,
                    station,
                },
            ) => {
                let name = SegmentName(segment);
                write!(f, "METER {name} {number} {user} {station}")
            }
            Record::Carried(CarriedPeak { meter, amount }) => write!(f, "CARRIED {meter} {amount}"),
            Record::Booked(
                Booking {
                    segment,
                    meter,
                    hour,
                    amount,
                },
            ) => {
                let name = SegmentName(segment);
                write!(f, "BOOK {name} {meter} {hour} {amount}")
            }
        }
    }
}
