ghost use Rattle.std.specs.Borrow.{Array, Lends, sem};
ghost use Rattle.std.specs.Prelude.{◌≡◌, ◌<◌, slice_index_or, slice_set};

/// An element of an array, lent to be changed.
// A function of its own, since what a loan of an array's element leaves is proved by hand.
pub(crate) fn element<T, const N: usize>(array: &mut [T; N], index: usize) -> &mut T
    requires { index < N }
    ensures* writes_back { sem 𝓛 (Lends (Array T.row N) T.row array.entry result (slice_set array.old index)) }
    ensures value { result.now ≡ slice_index_or array.old index result.now }
{
    &mut array[index]
}
