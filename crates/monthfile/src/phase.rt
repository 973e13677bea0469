// Where the reader of a month file stands.
use words::{SegmentWord, Spot};

#[derive(Clone, Copy, PartialEq, Eq, Debug)]
pub enum Phase {
    Start,
    // After the period, and between two segments.
    Segments,
    // After a segment word: its factor has to follow.
    Terms(SegmentWord),
    Meters,
    Peaks,
    // After a select: its amount has to follow.
    Selected(Spot),
    // After an amount: the hour is the one that the next amount books.
    Booked(Spot),
}
