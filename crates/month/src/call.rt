use plan::Booking;

/// One call on an open month.
#[derive(Clone, Copy, PartialEq, Eq, Debug)]
pub enum Call {
    /// Book the amount of a meter in an hour.
    Book(Booking),
    /// Ask how many hours a meter still misses. The segment is a number, since a caller may name one that is none.
    Ask { segment: u32, meter: u32 },
}

/// What a call that is not refused answers.
#[derive(Clone, Copy, PartialEq, Eq, Debug)]
pub enum Answer {
    /// The booking is accepted.
    Booked,
    /// The meter misses so many hours.
    Missing(u64),
}
