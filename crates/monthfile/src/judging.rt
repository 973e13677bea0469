// Judges one word by the reader's phase and the word's kind together.
ghost use Rattle.std.specs.Prelude.{◌≡◌, ◌<◌, ◌≤◌, if◌then◌else◌, Some, MatchResult};
ghost use Rattle.plan.specs.Calls.{SetPeriod, AddMeter, AddCarried};
ghost use Rattle.plan.specs.Contents.{Contents, nothing};
ghost use Rattle.plan.specs.Questions.{is_full};
ghost use Rattle.plan.specs.OfPlan.{contents};
ghost use Rattle.monthfile.specs.Faults.{Judged, JudgedByPlan, Stepped, told};
ghost use Rattle.monthfile.specs.Numbers.{number_of};
ghost use Rattle.monthfile.specs.declared.fault.FileFault.TheVariants.{OutsideLimits};
ghost use Rattle.words.specs.declared.word.Word.TheVariants.{Select};
ghost use Rattle.monthfile.specs.File.{one_on};
ghost use Rattle.monthfile.specs.declared.telling.Layer.TheVariants.{File as FILE};
ghost use Rattle.monthfile.specs.Judging.{beginning, last_hour, offtake, redundant, terms_call};
ghost use Rattle.monthfile.specs.View.{standing_of};
ghost use Rattle.monthfile.specs.declared.phase.Phase.TheVariants.{Segments, Meters, Peaks, Selected, Booked};

use crate::brought::Brought;
use crate::fault::{FileFault, Placed, ReadFault, at_place};
use crate::phase::Phase;
use crate::reader::Reader;
use plan::{Booking, CarriedPeak, Meter, Plan};
use std::alloc::Global;
use std::mem;
use words::{SegmentWord, Spot, Word};

// The last hour of the longest month.
pub const LAST_HOUR: u32 = 744;

impl Reader {
    // A reader at the beginning of a file.
    pub fn new(heap: Global) -> Reader
        ensures { standing_of result ≡ beginning }
    {
        Reader {
            phase: Phase::Start,
            plan: Plan::new(heap),
        }
    }

    // Hands the plan out and goes on with an empty one: after the first select no word is for the plan.
    pub fn take_plan(&mut self, heap: Global) -> Plan
        ensures plan { contents result ≡ contents self.old.plan }
        ensures left { standing_of self.new ≡ record { phase = self.old.phase; plan = nothing } }
    {
        mem::replace(&mut self.plan, Plan::new(heap))
    }

    // Judges the bits of the word at this place: what it brings, or its fault, which leaves the reader where it stood. A pair
    // of place and bits would only be taken apart again.
    pub fn step(&mut self, place: u64, bits: u32) -> Result<Brought, ReadFault>
        ensures { Stepped (standing_of self.old) place bits result (standing_of self.new) }
    {
        let Some(word) = Word::decode(bits) else {
            return Err(refused(FileFault::Malformed, place));
        };
        self.judged(place, word)
    }

    fn judged(&mut self, place: u64, word: Word) -> Result<Brought, ReadFault>
        ensures { Judged (standing_of self.old) place word result (standing_of self.new) }
    {
        match (word, self.phase) {
            (Word::Period { year, month, hours }, Phase::Start) => {
                self.take_period(place, year, month, hours)
            }
            (Word::Segment(given), Phase::Segments) => {
                self.phase = Phase::Terms(given);
                Ok(Brought::Nothing)
            }
            (Word::Factor { segment, factor }, Phase::Terms(given)) if given.segment == segment => {
                self.take_segment(place, given, factor)
            }
            (
                Word::Meter {
                    segment,
                    user,
                    station,
                    meter,
                },
                Phase::Meters,
            ) => {
                // No `From` can stand for this: words and plan do not know one another.
                let assigned = Meter {
                    segment,
                    number: meter,
                    user,
                    station,
                };
                self.take_meter(place, assigned)
            }
            (Word::Carried { meter, amount }, Phase::Meters | Phase::Peaks) => {
                self.take_peak(place, CarriedPeak { meter, amount })
            }
            (Word::Select(spot), Phase::Meters | Phase::Peaks) => {
                self.select(place, spot, Brought::Opening)
            }
            (Word::Select(spot), Phase::Booked(next)) if !is_redundant(next, spot) => {
                self.select(place, spot, Brought::Nothing)
            }
            (Word::Amount { amount }, Phase::Selected(spot) | Phase::Booked(spot)) => {
                self.book(place, spot, amount)
            }
            _ => Err(refused(FileFault::OutOfOrder, place)),
        }
    }

    // By its numbers, as the plan takes them.
    fn take_period(
        &mut self,
        place: u64,
        year: u32,
        month: u32,
        hours: u32,
    ) -> Result<Brought, ReadFault>
        ensures { JudgedByPlan (standing_of self.old) place (SetPeriod (record { year = year; month = month; hours = hours })) (λ _. Segments) result (standing_of self.new) }
    {
        at_place(self.plan.set_period(year, month, hours), place)?;
        self.phase = Phase::Segments;
        Ok(Brought::Nothing)
    }

    // A segment is judged at its factor.
    fn take_segment(
        &mut self,
        place: u64,
        given: SegmentWord,
        factor: u32,
    ) -> Result<Brought, ReadFault>
        ensures { JudgedByPlan (standing_of self.old) place (terms_call given factor) (λ plan. (if is_full plan then Meters else Segments)) result (standing_of self.new) }
    {
        at_place(
            self.plan
                .add_segment(given.segment, given.service, given.tariff, factor),
            place,
        )?;
        self.phase = if self.plan.is_full() {
            Phase::Meters
        } else {
            Phase::Segments
        };
        Ok(Brought::Nothing)
    }

    // One function for each call on the plan, here and above: the contract names the call and the phase after it, and what
    // the bodies share is three short lines.
    fn take_meter(&mut self, place: u64, meter: Meter) -> Result<Brought, ReadFault>
        ensures { JudgedByPlan (standing_of self.old) place (AddMeter meter) (λ _. Meters) result (standing_of self.new) }
    {
        at_place(self.plan.add_meter(meter), place)?;
        self.phase = Phase::Meters;
        Ok(Brought::Nothing)
    }

    fn take_peak(&mut self, place: u64, peak: CarriedPeak) -> Result<Brought, ReadFault>
        ensures { JudgedByPlan (standing_of self.old) place (AddCarried peak) (λ _. Peaks) result (standing_of self.new) }
    {
        at_place(self.plan.add_carried(peak), place)?;
        self.phase = Phase::Peaks;
        Ok(Brought::Nothing)
    }

    // A select and an amount share the limit of the hour alone.
    fn select(&mut self, place: u64, spot: Spot, brought: Brought) -> Result<Brought, ReadFault>
        ensures { MatchResult result (λ b. (spot.hour ≤ last_hour) × (b ≡ brought) × (standing_of self.new ≡ record { phase = Selected spot; plan = contents self.old.plan })) (λ fault. (last_hour < spot.hour) × (told fault ≡ Some (record { layer = FILE; number = number_of OutsideLimits; place = place })) × (standing_of self.new ≡ standing_of self.old)) }
    {
        if spot.hour > LAST_HOUR {
            return Err(refused(FileFault::OutsideLimits, place));
        }
        self.phase = Phase::Selected(spot);
        Ok(brought)
    }

    // An amount books the selected hour and moves the selection one hour on.
    fn book(&mut self, place: u64, spot: Spot, amount: u32) -> Result<Brought, ReadFault>
        ensures { MatchResult result (λ b. (spot.hour ≤ last_hour) × (b ≡ offtake (Some spot) amount) × (standing_of self.new ≡ record { phase = Booked (one_on spot); plan = contents self.old.plan })) (λ fault. (last_hour < spot.hour) × (told fault ≡ Some (record { layer = FILE; number = number_of OutsideLimits; place = place })) × (standing_of self.new ≡ standing_of self.old)) }
    {
        if spot.hour > LAST_HOUR {
            return Err(refused(FileFault::OutsideLimits, place));
        }
        self.phase = Phase::Booked(Spot {
            hour: spot.hour + 1,
            ..spot
        });
        // No `From` can stand for this: the spot is of words, the booking of plan.
        Ok(Brought::Offtake(Booking {
            segment: spot.segment,
            meter: spot.meter,
            hour: spot.hour,
            amount,
        }))
    }
}

// Whether a select names the hour that the next amount would book anyway; past the last hour an amount books none.
fn is_redundant(next: Spot, spot: Spot) -> bool
    ensures { result ≡ redundant next (Select spot) }
{
    next == spot && next.hour <= LAST_HOUR
}

pub(crate) fn refused(fault: FileFault, place: u64) -> ReadFault
    ensures { told result ≡ Some (record { layer = FILE; number = number_of fault; place = place }) }
{
    ReadFault::from(Placed { fault, place })
}
