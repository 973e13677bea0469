// An hour of a meter: what a select names, and what an amount books.
#[derive(Clone, Copy, PartialEq, Eq, Debug)]
pub struct Spot {
    pub segment: u32,
    pub meter: u32,
    pub hour: u32,
}
