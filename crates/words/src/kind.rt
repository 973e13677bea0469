// The kind of a word, which its four highest bits say.
ghost use Rattle.std.specs.Prelude.{◌≡◌, ◌*◌, ◌^◌};
ghost use Rattle.words.specs.Kinds.{KindOf, number_of};

use crate::layout::KIND;

#[derive(Clone, Copy)]
pub(crate) enum Kind {
    Period = 1,
    Segment = 2,
    Factor = 3,
    Meter = 4,
    Select = 5,
    Amount = 6,
    Carried = 7,
}

// A number that names no kind.
#[derive(Clone, Copy)]
pub(crate) struct UnknownKind;

impl TryFrom<u32> for Kind {
    type Error = UnknownKind;

    ghost try_from_gives = { KindOf };

    fn try_from(number: u32) -> Result<Kind, UnknownKind> {
        match number {
            1 => Ok(Kind::Period),
            2 => Ok(Kind::Segment),
            3 => Ok(Kind::Factor),
            4 => Ok(Kind::Meter),
            5 => Ok(Kind::Select),
            6 => Ok(Kind::Amount),
            7 => Ok(Kind::Carried),
            _ => Err(UnknownKind),
        }
    }
}

impl Kind {
    // The bits of the kind, with nothing below.
    pub(crate) fn bits(self) -> u32
        ensures { result ≡ number_of self * 2 ^ 28 }
    {
        (self as u32) << KIND.low
    }
}
