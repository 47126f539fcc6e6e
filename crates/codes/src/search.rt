//! The search among members in order of their codes, from a hint on and by halves: segments, groups or ranges.
ghost use Rattle.std.specs.Prelude.{◌≡◌, ◌+◌, ◌<◌, ◌≤◌, ℕ, IfSome};
ghost use Rattle.codes.specs.Order.{Ascends, IsFirstReaching};

/// Members, each with a last code.
pub trait Ends {
    /// How many members there are.
    ghost count_of: { Self → ℕ };

    /// The last code of a member.
    ghost end_of: { Self → ℕ → ℕ };

    /// Returns how many members there are.
    fn count(&self) -> usize
        ensures { result ≡ count_of self.now };

    /// Returns the last code of member `i`.
    fn end_at(&self, i: usize) -> u32
        requires { i < count_of self.now }
        ensures { result ≡ end_of self.now i };
}

/// No hint where a member may stand.
pub const ANYWHERE: usize = usize::MAX;

// Returns the place after another one, where the first member that ends at the code or above it stands there,
// or none does and the other place is the last one.
#[tactic(auto, using(crate::proofs::OrderLemmas::first_behind))]
fn place_behind<E: Ends>(ends: &E, place: usize, code: u32) -> Option<usize>
    requires { Ascends (E.end_of ends.now) (E.count_of ends.now) }
    ensures { IfSome result (IsFirstReaching (E.end_of ends.now) (E.count_of ends.now) code) }
{
    let count = ends.count();
    if count <= place || code <= ends.end_at(place) {
        return None;
    }
    let next = place + 1;
    if next == count || code <= ends.end_at(next) {
        Some(next)
    } else {
        None
    }
}

// Returns the place of the first member that ends at the code or above it, or the number of members where none
// does. It is looked for at the place that the hint names and the one before it, or after that in steps that
// double, and then by halves. It stands apart, so that what is done at each step of a walk stays short.
#[inline(never)]
fn searched<E: Ends>(ends: &E, hint: usize, code: u32) -> usize
    requires { Ascends (E.end_of ends.now) (E.count_of ends.now) }
    ensures { IsFirstReaching (E.end_of ends.now) (E.count_of ends.now) code result }
{
    let mut low = 0;
    let mut high = ends.count();
    let mut guess = hint;
    // 0 is by halves.
    let mut step: usize = if hint < high { 1 } else { 0 };
    while low < high {
        let middle = middle_of(low, high, guess);
        if ends.end_at(middle) < code {
            low = middle + 1;
            guess = middle.saturating_add(step);
            step = step.saturating_add(step);
        } else {
            high = middle;
            guess = if step == 1 {
                middle.saturating_sub(1)
            } else {
                ANYWHERE
            };
            step = 0;
        }
    }
    low
}

/// Returns the place of the first member that ends at the code or above it, or the number of members where none
/// does. One close after the place that the hint names is found soon.
pub fn first_reaching<E: Ends>(ends: &E, hint: usize, code: u32) -> usize
    requires { Ascends (E.end_of ends.now) (E.count_of ends.now) }
    ensures { IsFirstReaching (E.end_of ends.now) (E.count_of ends.now) code result }
{
    // Most walks go on with the next member.
    match place_behind(ends, hint, code) {
        Some(place) => place,
        None => searched(ends, hint, code),
    }
}

// Returns the guess where it lies between the bounds, and else the middle.
fn middle_of(low: usize, high: usize, guess: usize) -> usize
    requires { low < high }
    ensures from { low ≤ result }
    ensures to { result < high }
{
    if low <= guess && guess < high {
        guess
    } else {
        low + (high - low) / 2
    }
}
