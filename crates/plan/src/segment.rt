// The segments of a grid, and their numbers.
ghost use Rattle.std.specs.Prelude.{◌≡◌};
ghost use Rattle.plan.specs.Segments.{NumbersSegment, segment_number};

#[derive(Clone, Copy, PartialEq, Eq, Debug)]
pub enum Segment {
    Amr = 0,
    S30 = 1,
    Mrc = 2,
    Eav = 3,
}

// A number that no segment has. A type of its own, as each enum has one that numbers name.
#[derive(Clone, Copy, PartialEq, Eq, Debug)]
pub struct UnknownSegment(pub u32);

impl Segment {
    // In the order of their numbers.
    pub const ALL: [Segment; 4] = [Segment::Amr, Segment::S30, Segment::Mrc, Segment::Eav];
}

impl From<Segment> for u32 {
    ghost from_gives = { λ segment number. number ≡ segment_number segment };

    fn from(segment: Segment) -> u32 {
        segment as u32
    }
}

impl TryFrom<u32> for Segment {
    type Error = UnknownSegment;

    ghost try_from_gives = { NumbersSegment };

    fn try_from(number: u32) -> Result<Segment, UnknownSegment> {
        Segment::ALL
            .get(number as usize)
            .copied()
            .ok_or(UnknownSegment(number))
    }
}
