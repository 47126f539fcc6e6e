//! What calls answer where each request for memory is refused in turn.

// Each call makes fewer requests for memory.
const MANY: u64 = 200;

/// What a call answers where the request for memory of one number is refused.
#[derive(Clone, Copy, Debug, PartialEq, Eq)]
pub enum Outcome {
    /// What is stated. No request of that number came.
    Stated,
    /// That memory was refused, as it was, at this step of a join, or at step 0.
    NoMemory(usize),
    /// Anything else.
    Other,
}

/// Returns the answer, of which is known whether the request came, at which step the call says that
/// memory was refused, and whether it is as stated.
pub fn answered(has_refused: bool, step: Option<usize>, is_stated: bool) -> Outcome {
    match step {
        Some(step) if has_refused => Outcome::NoMemory(step),
        None if is_stated && !has_refused => Outcome::Stated,
        _ => Outcome::Other,
    }
}

/// Returns how many requests for memory were refused, each from `first` on in turn, and the last step
/// at which one was. There is none where no request came, where the steps do not come one after the
/// other, or where the answer after them is not the stated one.
pub fn refused_in_turn<F: Fn(u64) -> Outcome>(first: u64, call: F) -> Option<(u64, usize)>
    requires { F.IsAlwaysCallable call }
{
    let mut reached = 0usize;
    for k in first..MANY {
        match call(k) {
            Outcome::NoMemory(step) if step == reached || step == reached.wrapping_add(1) => {
                reached = step;
            }
            Outcome::Stated if k > first => return Some((k.wrapping_sub(first), reached)),
            _ => return None,
        }
    }
    None
}
