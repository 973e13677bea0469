// A record of a month file: a plan call, or a booking.
use plan::{Booking, CarriedPeak, Meter};

#[derive(Clone, Copy, PartialEq, Eq, Debug)]
pub enum Record {
    Period {
        year: u32,
        month: u32,
        hours: u32,
    },
    Terms {
        segment: u32,
        service: u32,
        tariff: u32,
        factor: u32,
    },
    Assigned(Meter),
    Carried(CarriedPeak),
    Booked(Booking),
}
