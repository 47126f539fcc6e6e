//! Members of a list in order of their codes. OpenType 1.9, cmap, Format 14: Unicode variation sequences.
ghost use Rattle.std.specs.Prelude.{◌≡◌, ◌<◌, IfSome, ℕ, true};
ghost use Rattle.codes.specs.Order.{IsFirstReaching};
ghost use Rattle.variation_sequences.specs.Inside.{IsNextCode};
ghost use Rattle.variation_sequences.specs.Spans.{is_above, are_ascending, member_with};

use codes::{ANYWHERE, CODES, Ends, first_reaching};

/// Members, each with a first and a last code.
pub(crate) trait Spans: Ends {
    /// The first code of a member.
    ghost first_of: { Self → ℕ → ℕ };

    /// Returns the first code of member `i`.
    fn first_at(&self, i: usize) -> u32
        requires { i < Self.count_of self.now }
        ensures { result ≡ first_of self.now i };
}

// Returns whether a member has codes, up to 0x10FFFF at most, and lies strictly above the one before it.
fn is_above<S: Spans>(spans: &S, i: usize) -> bool
    requires { i < S.count_of spans.now }
    ensures { result ≡ is_above (S.first_of spans.now) (S.end_of spans.now) i }
{
    let first = spans.first_at(i);
    let last = spans.end_at(i);
    first <= last && last < CODES && (i == 0 || spans.end_at(i - 1) < first)
}

/// Returns whether all members are in order of their codes.
#[tactic(auto, unfolding(crate::specs::Spans::are_ascending))]
pub(crate) fn is_ascending<S: Spans>(spans: &S) -> bool
    ensures { result ≡ are_ascending (S.first_of spans.now) (S.end_of spans.now) (S.count_of spans.now) }
{
    (0..spans.count()).all(|i| is_above(spans, i))
}

/// Returns the place of the first member that ends at the code or above it, or the number of members where none does.
/// One close after the place that the hint names is found soon.
pub(crate) fn place_near<S: Spans>(spans: &S, hint: usize, code: u32) -> usize
    requires { are_ascending (S.first_of spans.now) (S.end_of spans.now) (S.count_of spans.now) ≡ true }
    ensures { IsFirstReaching (S.end_of spans.now) (S.count_of spans.now) code result }
{
    first_reaching(spans, hint, code)
}

/// Returns the place of the member that has a code: it is this one, if there is any.
pub(crate) fn member_at<S: Spans>(spans: &S, place: usize, code: u32) -> Option<usize>
    requires order { are_ascending (S.first_of spans.now) (S.end_of spans.now) (S.count_of spans.now) ≡ true }
    requires place { IsFirstReaching (S.end_of spans.now) (S.count_of spans.now) code place }
    ensures value { result
        ≡ member_with (S.first_of spans.now) (S.end_of spans.now) (S.count_of spans.now) code }
    ensures within { IfSome result (λ k. k < S.count_of spans.now) }
{
    if spans.count() <= place {
        return None;
    }
    if code < spans.first_at(place) {
        return None;
    }
    Some(place)
}

/// Returns the place of the member that has a code.
pub(crate) fn find_member<S: Spans>(spans: &S, code: u32) -> Option<usize>
    requires { are_ascending (S.first_of spans.now) (S.end_of spans.now) (S.count_of spans.now) ≡ true }
    ensures value { result
        ≡ member_with (S.first_of spans.now) (S.end_of spans.now) (S.count_of spans.now) code }
    ensures within { IfSome result (λ k. k < S.count_of spans.now) }
{
    member_at(spans, place_near(spans, ANYWHERE, code), code)
}

/// Returns the least code, from `from` on, that a member has, or `CODES` where there is none. The member stands at this
/// place.
pub(crate) fn next_code<S: Spans>(spans: &S, place: usize, from: u32) -> u32
    requires order { are_ascending (S.first_of spans.now) (S.end_of spans.now) (S.count_of spans.now) ≡ true }
    requires place { IsFirstReaching (S.end_of spans.now) (S.count_of spans.now) from place }
    ensures { IsNextCode (S.first_of spans.now) (S.end_of spans.now) (S.count_of spans.now) from place
        result }
{
    if spans.count() <= place {
        return CODES;
    }
    from.max(spans.first_at(place))
}
