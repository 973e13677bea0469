// Puts what a file begins with: the period, and the terms of the segments.
ghost use Rattle.std.specs.List.{flat_map};
ghost use Rattle.plan.specs.Calls.{AddSegment};
ghost use Rattle.plan.specs.OfPlan.{contents};
ghost use Rattle.plan.specs.View.{segment_numbers};
ghost use Rattle.plan.specs.WellMade.{period_call, segment_calls};
ghost use Rattle.monthfile.specs.File.{call_words};
ghost use Rattle.monthwriter.specs.Placing.{RoomFor, WordsPut};

use crate::month_file::MonthFile;
use crate::placing::Output;
use plan::Segment;
use tariff::Terms;
use words::{SegmentWord, Word};

impl MonthFile<'_> {
    pub(crate) fn put_period(&self, out: &mut Output<'_>)
        requires { RoomFor out.old (flat_map call_words (period_call (contents self.now.plan.now).period)) }
        ensures { WordsPut out.old (flat_map call_words (period_call (contents self.now.plan.now).period)) out.new }
    {
        let period = self.plan.period().unwrap();
        out.put(Word::Period {
            year: period.year(),
            month: period.month(),
            hours: period.hours(),
        });
    }

    pub(crate) fn put_segments(&self, out: &mut Output<'_>)
        requires { RoomFor out.old (flat_map call_words (segment_calls 0 (contents self.now.plan.now).segments)) }
        ensures { WordsPut out.old (flat_map call_words (segment_calls 0 (contents self.now.plan.now).segments)) out.new }
    {
        for segment in Segment::ALL {
            let segment = u32::from(segment);
            let terms = self.plan.terms(segment).unwrap();
            put_segment(segment, &terms, out);
        }
    }
}

// A segment has two words.
fn put_segment(segment: u32, terms: &Terms, out: &mut Output<'_>)
    requires { RoomFor out.old (call_words (AddSegment segment (segment_numbers terms.now))) }
    ensures { WordsPut out.old (call_words (AddSegment segment (segment_numbers terms.now))) out.new }
{
    out.put(Word::Segment(SegmentWord {
        segment,
        service: u32::from(terms.service()),
        tariff: terms.tariff(),
    }));
    out.put(Word::Factor {
        segment,
        factor: terms.factor(),
    });
}
