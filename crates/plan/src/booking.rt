// A booking: what a meter took in an hour.
#[derive(Clone, Copy, PartialEq, Eq, Debug)]
pub struct Booking {
    // As the caller gave it, as in `Meter`.
    pub segment: u32,
    pub meter: u32,
    pub hour: u32,
    // In kWh.
    pub amount: u32,
}
