// An entry of a plan: it tells of one meter, and the entries of a list ascend by the meters' places.
ghost use Rattle.std.specs.Prelude.{◌≡◌, ℕ, ◌-◌, Bool, true};
ghost use Rattle.std.specs.List.{list_all};
ghost use Rattle.std.specs.Option.{option_map};
ghost use Rattle.plan.specs.Places.{is_place, place_precedes, rank};
ghost use Rattle.plan.specs.Questions.{first_of};
ghost use Rattle.plan.specs.WellMade.{ascending};

use crate::limits::MOST_METERS;

pub(crate) trait Entry {
    ghost place_of: { Self → ℕ × ℕ };

    ghost fits: { Self → Bool };

    // The segment of the entry's meter, and the meter's number there.
    fn place(&self) -> (u32, u32)
        ensures { result ≡ place_of self.now };

    fn is_within_limits(&self) -> bool
        ensures { result ≡ fits self.now };
}

// Whether the entry comes after all that the list has. These ascend, so the last one tells.
pub(crate) fn is_above<E: Entry>(entries: &[E], entry: &E) -> bool
    requires { ascending (λ a b. place_precedes (E.place_of a) (E.place_of b)) entries.now ≡ true }
    ensures { result ≡ list_all (λ other. place_precedes (E.place_of other) (E.place_of entry.now)) entries.now }
{
    entries
        .last()
        .is_none_or(|last| last.place() < entry.place())
}

// The entry of a meter, if the list has one.
pub(crate) fn entry_at<E: Entry>(entries: &[E], place: (u32, u32)) -> Option<&E>
    requires { ascending (λ a b. place_precedes (E.place_of a) (E.place_of b)) entries.now ≡ true }
    ensures { option_map (λ e. e.now) result ≡ first_of (λ e. is_place (E.place_of e) place) entries.now }
{
    let first = entries.first().map_or((0, 0), |entry| entry.place());
    // Where the list leaves out no meter from its first one to this, as in a plan that assigns all, the entry stands here.
    if let Some(entry) = entries.get(meters_between(first, place)) {
        if entry.place() == place {
            return Some(entry);
        }
    }
    let at = entries
        .binary_search_by_key(&place, |entry| entry.place())
        .ok()?;
    Some(&entries[at])
}

// How many meters come after the first place, up to the second.
fn meters_between(first: (u32, u32), second: (u32, u32)) -> usize
    ensures { result ≡ rank second - rank first }
{
    rank(second).saturating_sub(rank(first)) as usize
}

fn rank(place: (u32, u32)) -> u64
    ensures { result ≡ rank place }
{
    let (segment, number) = place;
    u64::from(segment) * u64::from(MOST_METERS) + u64::from(number)
}
