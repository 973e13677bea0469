// A word of a month file, by its kind. Its fields are whatever fits their bits; the plan and the month judge the values.
use crate::segment_word::SegmentWord;
use crate::spot::Spot;

// How many bytes a word has.
pub const WORD_BYTES: usize = 4;

#[derive(Clone, Copy, PartialEq, Eq, Debug)]
pub enum Word {
    // kind 1: the month, and how many hours of it are settled
    Period {
        year: u32,
        month: u32,
        hours: u32,
    },
    // kind 2: a segment's service and tariff
    Segment(SegmentWord),
    // kind 3: the segment's factor in thousandths
    Factor {
        segment: u32,
        factor: u32,
    },
    // kind 4: a meter with its network user and its station
    Meter {
        segment: u32,
        user: u32,
        station: u32,
        meter: u32,
    },
    // kind 5: the meter and the hour that the next amount is booked for
    Select(Spot),
    // kind 6: the offtake of an hour in kWh
    Amount {
        amount: u32,
    },
    // kind 7: the greatest hourly offtake of an AMR meter in the eleven months before
    Carried {
        meter: u32,
        amount: u32,
    },
}
