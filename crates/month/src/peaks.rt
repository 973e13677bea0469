ghost use Rattle.std.specs.Prelude.{◌≡◌, true, false, MatchResult};
ghost use Rattle.std.specs.List.{list_all};
ghost use Rattle.book.specs.Answers.{Opened};
ghost use Rattle.plan.specs.Calls.{peak_fits, peak_precedes};
ghost use Rattle.plan.specs.WellMade.{ascending};
ghost use Rattle.month.specs.Faults.{opening_number_of};
ghost use Rattle.book.specs.OfBook.{book_contents};
ghost use Rattle.month.specs.Opening.{PeaksNoted, peaks_light, peak_too_heavy};

use crate::fault::OpeningFault;
use book::Book;
use plan::CarriedPeak;
use weights::WeightSource;

/// Notes carried peaks, of which no meter has two, in a newly opened book.
pub(crate) fn carry_peaks<S: WeightSource>(
    book: &mut Book<S>,
    peaks: &[CarriedPeak],
) -> Result<(), OpeningFault>
    requires opened { Opened (book_contents book.old) }
    requires fit { list_all peak_fits peaks.now ≡ true }
    requires ascend { ascending peak_precedes peaks.now ≡ true }
    ensures noted { MatchResult result (λ _. PeaksNoted (S.joining book.old.source) peaks.now (book_contents book.old) (book_contents book.new)) (λ fault. opening_number_of fault ≡ peak_too_heavy) }
    ensures light { MatchResult result (λ _. peaks_light (S.joining book.old.source) peaks.now ≡ true) (λ _. peaks_light (S.joining book.old.source) peaks.now ≡ false) }
    ensures joining { S.joining book.new.source ≡ S.joining book.old.source }
{
    for peak in peaks {
        book.carry(u64::from(peak.meter), u64::from(peak.amount))?;
    }
    Ok(())
}
