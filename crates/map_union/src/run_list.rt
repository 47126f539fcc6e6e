//! Lists of runs, and the search for a code in them. OpenType 1.9, cmap, Format 12: Segmented coverage.
ghost use Rattle.std.specs.Prelude.{◌<◌, IsTrue, MatchOption};
ghost use Rattle.codes.specs.Runs.{IsRun, NoRun, spelled};
ghost use Rattle.map_union.specs.RunLists.{AreMapRuns};
ghost use Rattle.map_union.specs.Inside.{IsBetween, IsPast, IsPlace};

use codes::Run;
use std::cell::Cell;

// Returns the place of the first run that ends at a code or above it, which stands from `low` to `high`,
// by halving.
#[tactic(auto, using(crate::proofs::RunListLemmas::middle_past, crate::proofs::RunListLemmas::middle_there))]
fn place_between(runs: &[Run], low: usize, high: usize, from: u32) -> usize
    requires runs { AreMapRuns runs.now }
    requires between { IsBetween runs.now from low high }
    ensures { IsPlace runs.now from result }
{
    let mut low = low;
    let mut high = high;
    while low < high {
        let middle = low + (high - low) / 2;
        if runs[middle].last < from {
            low = middle + 1;
        } else {
            high = middle;
        }
    }
    low
}

// Returns a place from `start` on and one not below it, between which the first run stands that ends at
// a code or above it: in steps that double, so that a place close by is found at once.
fn bounds_from(runs: &[Run], start: usize, from: u32) -> (usize, usize)
    requires runs { AreMapRuns runs.now }
    requires past { IsPast runs.now from start }
    ensures { IsBetween runs.now from result.0 result.1 }
{
    let mut low = start;
    let mut step = 1;
    while step <= runs.len() - low {
        if from <= runs[low + step - 1].last {
            return (low, low + step - 1);
        }
        low += step;
        step += step;
    }
    (low, runs.len())
}

/// Returns the place of the first run that ends at a code or above it. The runs before `start` end below
/// that code.
pub fn place_from(runs: &[Run], start: usize, from: u32) -> usize
    requires runs { AreMapRuns runs.now }
    requires past { IsPast runs.now from start }
    ensures { IsPlace runs.now from result }
{
    let (low, high) = bounds_from(runs, start, from);
    place_between(runs, low, high, from)
}

/// Returns the run at a place, from a code on.
#[tactic(auto, using(crate::proofs::RunListLemmas::none_there, crate::proofs::RunListLemmas::run_there, crate::proofs::RunListLemmas::run_from_there, crate::proofs::RunListLemmas::glyph_there))]
pub fn run_from(runs: &[Run], place: usize, from: u32) -> Option<Run>
    requires runs { AreMapRuns runs.now }
    requires place { IsPlace runs.now from place }
    ensures { MatchOption result (NoRun (spelled runs.now) from) (IsRun (spelled runs.now) from) }
{
    if place == runs.len() {
        return None;
    }
    let run = runs[place];
    if from <= run.first {
        return Some(run);
    }
    Some(Run {
        first: from,
        last: run.last,
        glyph: run.glyph + (from - run.first) as u16,
    })
}

/// Where a walk over a list of runs stands: the place of the run that was found last, and how many places that
/// was after the one before. Any hint will do, and a good one spares a search: walks often go on in even steps.
#[derive(Clone, Copy)]
pub struct Hint {
    place: usize,
    step: usize,
}

impl Hint {
    /// A walk that has not begun.
    pub const START: Hint = Hint { place: 0, step: 0 };

    // Returns the walk after a run was found at a place. One that stays keeps its step.
    fn moved(self, place: usize) -> Hint {
        if place == self.place {
            return self;
        }
        Hint {
            place,
            step: place.saturating_sub(self.place),
        }
    }
}

/// Returns the place of the first run that ends at a code or above it, where the runs before `low` end below
/// the code. It is likely to be `low`, or else `guess`.
pub fn place_by_guess(runs: &[Run], low: usize, guess: usize, from: u32) -> usize
    requires runs { AreMapRuns runs.now }
    requires past { IsPast runs.now from low }
    ensures { IsPlace runs.now from result }
{
    if low == runs.len() || from <= runs[low].last {
        return low;
    }
    if guess <= low || runs.len() < guess {
        return place_from(runs, low, from);
    }
    if runs[guess - 1].last < from {
        return place_from(runs, guess, from);
    }
    place_between(runs, low, guess - 1, from)
}

// Returns the place of the first run that ends at a code or above it: on from the hint, where it is not before
// that, and else from the first run on.
#[tactic(auto, using(crate::proofs::RunListLemmas::past_middle, crate::proofs::RunListLemmas::past_none))]
fn place_near(runs: &[Run], hint: Hint, from: u32) -> usize
    requires { AreMapRuns runs.now }
    ensures { IsPlace runs.now from result }
{
    let place = hint.place;
    if place < runs.len() && runs[place].last < from {
        return place_by_guess(runs, place + 1, place.saturating_add(hint.step), from);
    }
    if 0 < place && place <= runs.len() && runs[place - 1].last < from {
        return place;
    }
    place_from(runs, 0, from)
}

// Returns whether the first run that ends at a code or above it stands at a place, which is not the first
// one.
fn is_place(runs: &[Run], place: usize, from: u32) -> bool
    requires { AreMapRuns runs.now }
    ensures { IsTrue result → IsPlace runs.now from place }
{
    if place == 0
        || runs.len() <= place
        || from <= runs[place - 1].last
        || runs[place].last < from
    {
        return false;
    }
    true
}

// Returns the run that begins at the least mapped code not below `from`, where a walk takes another step
// than before. It stands apart, so that what is done at each step stays short.
#[cold]
#[inline(never)]
fn run_searched(runs: &[Run], hint: &Cell<Hint>, from: u32) -> Option<Run>
    requires { AreMapRuns runs.now }
    ensures { MatchOption result (NoRun (spelled runs.now) from) (IsRun (spelled runs.now) from) }
{
    let last = hint.get();
    let place = place_near(runs, last, from);
    hint.set(last.moved(place));
    run_from(runs, place, from)
}

/// Returns the run that begins at the least mapped code not below `from`. `hint` keeps where it stands, so
/// that a walk over the runs goes on from there.
#[inline(always)]
pub fn run_among(runs: &[Run], hint: &Cell<Hint>, from: u32) -> Option<Run>
    requires { AreMapRuns runs.now }
    ensures { MatchOption result (NoRun (spelled runs.now) from) (IsRun (spelled runs.now) from) }
{
    let last = hint.get();
    let place = last.place.saturating_add(last.step);
    // Most steps are as long as the one before: they read two runs that stand beside each other.
    if is_place(runs, place, from) {
        hint.set(Hint { place, ..last });
        return run_from(runs, place, from);
    }
    run_searched(runs, hint, from)
}
