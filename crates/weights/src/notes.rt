ghost use Rattle.std.specs.Prelude.{◌≡◌};
ghost use Rattle.weights.specs.Accepted.{NotedEach};

use crate::source::WeightSource;

/// Notes the amounts for the meter, one after another, and answers how many of them were accepted; a refused one is
/// passed over. The order in which accepted amounts come makes no difference to the weights.
pub fn note_each<S: WeightSource>(source: &mut S, meter: u64, amounts: &[u64]) -> usize
    ensures noted { NotedEach (S.joining source.old) (S.weights source.old) meter amounts.now result (S.weights source.new) }
    ensures joining { S.joining source.new ≡ S.joining source.old }
{
    // A loop: a filter that notes what it tests would be no plainer than this.
    let mut count = 0;
    for amount in amounts {
        if source.note(meter, *amount).is_ok() {
            count += 1;
        }
    }
    count
}
