// A meter of a segment, and whose it is.
ghost use Rattle.std.specs.Prelude.{◌≡◌};
ghost use Rattle.plan.specs.Calls.{meter_fits};
ghost use Rattle.plan.specs.Questions.{holding};

use crate::entry::Entry;
use crate::limits::{MOST_METERS, MOST_STATIONS, MOST_USERS};
use crate::segment::Segment;

#[derive(Clone, Copy, PartialEq, Eq, Debug)]
pub struct Meter {
    // As the caller gave it, which may be no segment's number: the plan judges it, and a narrower type would ask more of
    // the caller.
    pub segment: u32,
    pub number: u32,
    pub user: u32,
    pub station: u32,
}

// The user whose a meter is, and the station that it stands at.
#[derive(Clone, Copy, PartialEq, Eq, Debug)]
pub struct Holder {
    pub user: u32,
    pub station: u32,
}

impl Meter {
    pub(crate) fn holder(&self) -> Holder
        ensures { result ≡ holding self.now }
    {
        Holder {
            user: self.user,
            station: self.station,
        }
    }
}

impl Entry for Meter {
    ghost place_of = { λ m. (m.segment, m.number) };

    ghost fits = { meter_fits };

    fn place(&self) -> (u32, u32) {
        (self.segment, self.number)
    }

    fn is_within_limits(&self) -> bool {
        Segment::try_from(self.segment).is_ok()
            && self.number < MOST_METERS
            && self.user < MOST_USERS
            && self.station < MOST_STATIONS
    }
}
