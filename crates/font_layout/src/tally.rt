//! What a walk through a GSUB counts, this project's own.
ghost use Rattle.std.specs.Prelude.{◌≡◌, ◌+◌, ◌≤◌, ◌<◌, ◌||◌, nat_lt, not, IfSome, IsSome, is_some, length};
ghost use Rattle.std.specs.List.{AllByRecursion, list_any};
ghost use Rattle.font_layout.specs.Inside.{IsOfGlyphs, after_all, after_step, start_tally, with_number};
ghost use Rattle.font_layout.specs.Layout.{is_fault, links_among, step_count};

use crate::layout::STEP_LIMIT;
use crate::step::Step;
use crate::walk::Steps;

/// What was counted of the steps so far.
#[derive(Clone, Copy, Debug, PartialEq, Eq)]
pub(crate) struct Tally {
    /// How many more steps there may be.
    pub(crate) left: u32,
    /// How many links there are.
    pub(crate) links: u32,
    /// One more than the largest number of a link.
    pub(crate) numbers: u32,
}

const START: Tally = Tally {
    left: STEP_LIMIT,
    links: 0,
    numbers: 0,
};

// Returns a count that is no less than another one, and that a number is below.
fn with_number(count: u32, g: u16) -> u32
    requires { count ≤ 65536 }
    ensures value { result ≡ with_number count g }
    ensures small { result ≤ 65536 }
{
    if u32::from(g) < count {
        return count;
    }
    u32::from(g) + 1
}

// Counts a step, and returns none where it is a fault or there are too many.
#[tactic(auto, unfolding(crate::specs::Inside::after_step))]
fn after_step(tally: Tally, step: Step) -> Option<Tally>
    requires few { tally.links + tally.left ≤ STEP_LIMIT }
    requires small { tally.numbers ≤ 65536 }
    ensures value { result ≡ after_step tally step }
    ensures few { IfSome result (λ t. t.links + t.left ≤ STEP_LIMIT) }
    ensures small { IfSome result (λ t. t.numbers ≤ 65536) }
{
    match step {
        Step::Part(read) => {
            if tally.left < read {
                return None;
            }
            Some(Tally {
                left: tally.left - read,
                links: tally.links,
                numbers: tally.numbers,
            })
        }
        Step::Leads(link) => {
            if tally.left == 0 {
                return None;
            }
            Some(Tally {
                left: tally.left - 1,
                links: tally.links + 1,
                numbers: with_number(with_number(tally.numbers, link.from), link.to),
            })
        }
        Step::Fault => None,
    }
}

// Counts steps, as long as there is no fault and there are not too many.
fn count_all(steps: Steps<'_>) -> Option<Tally>
    ensures value { result ≡ after_all start_tally steps.entry }
    ensures small { IfSome result (λ t. t.numbers ≤ 65536) }
{
    let mut tally = START;
    for step in steps {
        tally = after_step(tally, step)?;
    }
    Some(tally)
}

/// Counts steps, and returns none where there is a fault among them, or there are more of them than the limit.
#[tactic(auto, using(crate::proofs::TallyLemmas::counted_all, crate::proofs::TallyLemmas::counted_links, crate::proofs::TallyLemmas::counted_numbers))]
pub(crate) fn tally_of(steps: Steps<'_>) -> Option<Tally>
    ensures some { is_some result ≡ not (list_any is_fault steps.entry
        || nat_lt STEP_LIMIT (step_count steps.entry)) }
    ensures links { IfSome result (λ t. t.links ≡ length (links_among steps.entry)) }
    ensures numbers { IfSome result (λ t. AllByRecursion (IsOfGlyphs t.numbers) (links_among steps.entry)) }
    ensures small { IfSome result (λ t. t.numbers ≤ 65536) }
{
    count_all(steps)
}
