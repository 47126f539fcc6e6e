//! The runs of the union of two maps. OpenType 1.9, cmap, Format 12: Segmented coverage.
ghost use Rattle.std.specs.Prelude.{◌≡◌, ◌+◌, ◌<◌, ◌≤◌, ◌++◌, ℕ, List, [], length, IfOk, IfSome, IsTrue, OnErr, OnOk};
ghost use Rattle.sfnt_bytes.specs.Memory.{IsRefused};
ghost use Rattle.codes.specs.CharacterMap.{IsCharacterMap, united};
ghost use Rattle.codes.specs.Runs.{IsNext, IsPiece, IsRun, spelled};
ghost use Rattle.codes.specs.declared.code_points.TheConstants.{CODES, LAST_CODE};
ghost use Rattle.codes.specs.declared.runs.Run.{Run};
ghost use Rattle.map_union.specs.RunLists.{AreMapRuns};
ghost use Rattle.map_union.specs.Inside.{AreLeftAlone, ArePast, IsDone, IsPast, IsPlace, LeavesAlone, run_at};

use crate::run_list::{place_by_guess, run_from};
use codes::{CODES, Run};
use sfnt_bytes::{Memory, NoMemory};

// The places in two lists of runs at which a walk over both of them stands.
#[derive(Clone, Copy)]
struct Places {
    first: usize,
    second: usize,
}

// Where that walk stands, and the code before which all runs are listed.
#[derive(Clone, Copy)]
struct Position {
    places: Places,
    code: u32,
}

// Runs of one list that the other one leaves alone, and where the walk stands after them.
#[derive(Clone, Copy)]
struct Stretch<'r> {
    runs: &'r [Run],
    end: Position,
}

// Returns the place of the first run that ends at a code or above it, where the runs before a place are
// known to end below the code.
#[tactic(auto, using(crate::proofs::RunListLemmas::past_more))]
fn place_after(runs: &[Run], place: usize, from: u32) -> usize
    requires { IsPast runs.now from place }
    ensures { IsPlace runs.now from result }
{
    let mut at = place;
    while at < runs.len() && runs[at].last < from {
        at += 1;
    }
    at
}

/// Returns the first piece of the union of two maps, where the first pieces of both are known: one of them,
/// up to where the first map goes on.
pub fn first_piece(a: Option<Run>, b: Option<Run>) -> Option<Run>
    ensures { (m k : ℕ → ℕ) (from : ℕ) → IsNext m from a → IsNext k from b → IsNext (united m k) from result }
{
    let Some(a) = a else {
        return b;
    };
    let Some(b) = b else {
        return Some(a);
    };
    if a.first <= b.first {
        return Some(a);
    }
    Some(Run {
        first: b.first,
        last: b.last.min(a.first - 1),
        glyph: b.glyph,
    })
}

// Returns the first piece of both from a code on, and the places that it was found at.
#[tactic(auto, using(crate::proofs::RunListLemmas::next_of, crate::proofs::RunListLemmas::past_on))]
fn piece_of_both(a: &[Run], b: &[Run], places: Places, from: u32) -> (Option<Run>, Places)
    requires first { AreMapRuns a.now }
    requires second { AreMapRuns b.now }
    requires past { ArePast a.now b.now from places.first places.second }
    ensures piece { IsNext (united (spelled a.now) (spelled b.now)) from result.0 }
    ensures past { ArePast a.now b.now from result.1.first result.1.second }
{
    let first = place_after(a, places.first, from);
    let second = place_after(b, places.second, from);
    let piece = first_piece(run_from(a, first, from), run_from(b, second, from));
    (piece, Places { first, second })
}

// Returns the run that begins with a piece, and places in both lists before which all runs end with it.
fn run_of_both(a: &[Run], b: &[Run], places: Places, piece: Run) -> (Run, Places)
    requires first { AreMapRuns a.now }
    requires second { AreMapRuns b.now }
    requires order { piece.first ≤ piece.last }
    requires small { piece.last ≤ LAST_CODE }
    requires past { ArePast a.now b.now (piece.last + 1) places.first places.second }
    ensures run { (from : ℕ) → IsPiece (united (spelled a.now) (spelled b.now)) from piece →
        IsRun (united (spelled a.now) (spelled b.now)) from result.0 }
    ensures small { result.0.last ≤ LAST_CODE }
    ensures past { ArePast a.now b.now (result.0.last + 1) result.1.first result.1.second }
{
    let mut run = piece;
    let (mut ahead, mut at) = piece_of_both(a, b, places, piece.last + 1);
    while let Some(next) = ahead {
        if next.first != run.last + 1 {
            return (run, at);
        }
        if u32::from(next.glyph) != u32::from(run.glyph) + (next.first - run.first) {
            return (run, at);
        }
        run.last = next.last;
        (ahead, at) = piece_of_both(a, b, at, next.last + 1);
    }
    (run, at)
}

// Returns whether the run at a place leaves a run alone, which begins at a code or above it: it begins
// after that run and does not go on with it. So does the end of the list.
fn leaves_alone(runs: &[Run], place: usize, run: Run) -> bool
    requires runs { AreMapRuns runs.now }
    requires order { run.first ≤ run.last }
    requires small { run.last ≤ LAST_CODE }
    requires some { 0 < run.glyph }
    ensures { (from : ℕ) → IsPast runs.now from place → from ≤ run.first → IsTrue result →
        LeavesAlone (spelled runs.now) from run }
{
    if place >= runs.len() {
        return true;
    }
    let next = runs[place];
    if next.first <= run.last {
        return false;
    }
    let goes_on = u32::from(run.glyph) + (run.last - run.first) + 1;
    if next.first == run.last + 1 && u32::from(next.glyph) == goes_on {
        return false;
    }
    true
}

// Returns the place after the runs of `a` from place `i` on that `b` leaves alone, whose next run is at
// place `j`: those that end below that run, but for the last one where that run goes on with it. The run at
// place `i` is one of them in any case. They are likely to be `count` runs.
#[tactic(auto, using(crate::proofs::StretchLemmas::each_sound))]
fn end_of_stretch(a: &[Run], i: usize, b: &[Run], j: usize, count: usize) -> usize
    requires first { AreMapRuns a.now }
    requires second { AreMapRuns b.now }
    requires there { i < length a.now }
    ensures order { i < result }
    ensures within { result ≤ length a.now }
    ensures alone { (from : ℕ) → IsPast b.now from j → from ≤ (run_at a.now i).first →
        AreLeftAlone a.now i result (spelled b.now) from }
{
    if j >= b.len() {
        return a.len();
    }
    let next = b[j].first;
    if next <= a[i].last {
        return i + 1;
    }
    let end = place_by_guess(a, i + 1, i.saturating_add(count), next);
    if end == i + 1 || leaves_alone(b, j, a[end - 1]) {
        return end;
    }
    end - 1
}

// Returns the runs of one of both that begin at a position and are left alone by the other list. They are likely to
// be `count` runs.
fn next_apart<'r>(a: &'r [Run], b: &'r [Run], at: Position, count: usize) -> Option<Stretch<'r>>
    requires first { AreMapRuns a.now }
    requires second { AreMapRuns b.now }
    requires past { ArePast a.now b.now at.code at.places.first at.places.second }
    ensures done { IfSome result (λ stretch. (runs : List Run) →
        IsDone (united (spelled a.now) (spelled b.now)) runs at.code →
        IsDone (united (spelled a.now) (spelled b.now)) (runs ++ stretch.runs.now) stretch.end.code) }
    ensures past { IfSome result (λ stretch.
        ArePast a.now b.now stretch.end.code stretch.end.places.first stretch.end.places.second) }
    ensures order { IfSome result (λ stretch. (at.code < stretch.end.code) × (stretch.end.code ≤ CODES)) }
{
    let Places {
        first: i,
        second: j,
    } = at.places;
    if i < a.len() && at.code <= a[i].first && leaves_alone(b, j, a[i]) {
        let end = end_of_stretch(a, i, b, j, count);
        let places = Places {
            first: end,
            second: j,
        };
        let code = a[end - 1].last + 1;
        return Some(Stretch {
            runs: &a[i..end],
            end: Position { places, code },
        });
    }
    if j < b.len() && at.code <= b[j].first && leaves_alone(a, i, b[j]) {
        let end = end_of_stretch(b, j, a, i, count);
        let places = Places {
            first: i,
            second: end,
        };
        let code = b[end - 1].last + 1;
        return Some(Stretch {
            runs: &b[j..end],
            end: Position { places, code },
        });
    }
    None
}

// Adds a stretch of runs. For one run a copy of a slice costs more than the run.
#[tactic(auto, using(crate::proofs::StretchLemmas::one_run))]
fn push_stretch<A: Memory>(runs: &mut Vec<Run, A>, stretch: &[Run]) -> Result<(), NoMemory>
    ensures pushed { OnOk result (runs.new.items ≡ runs.old.items ++ stretch.now) }
    ensures memory { OnErr result (IsRefused A.refuses) }
{
    if stretch.len() == 1 {
        return A::push(runs, stretch[0]);
    }
    A::append(runs, stretch)
}

// Adds the runs of both from a position on that are left alone by the other list, up to one that is not. Returns the
// position after the last one.
fn push_apart<A: Memory>(
    a: &[Run],
    b: &[Run],
    from: Position,
    runs: &mut Vec<Run, A>,
) -> Result<Position, NoMemory>
    requires first { AreMapRuns a.now }
    requires second { AreMapRuns b.now }
    requires past { ArePast a.now b.now from.code from.places.first from.places.second }
    requires small { from.code ≤ CODES }
    requires done { IsDone (united (spelled a.now) (spelled b.now)) runs.old.items from.code }
    ensures done { IfOk result
        (λ end. IsDone (united (spelled a.now) (spelled b.now)) runs.new.items end.code) }
    ensures past { IfOk result (λ end. ArePast a.now b.now end.code end.places.first end.places.second) }
    ensures order { IfOk result (λ end. (from.code ≤ end.code) × (end.code ≤ CODES)) }
    ensures memory { OnErr result (IsRefused A.refuses) }
{
    let mut at = from;
    // The lists mostly take turns, and each goes on in stretches of one length.
    let mut counts = (1, 1);
    while let Some(stretch) = next_apart(a, b, at, counts.0) {
        push_stretch(runs, stretch.runs)?;
        at = stretch.end;
        counts = (counts.1, stretch.runs.len());
    }
    Ok(at)
}

// Returns an empty list with room for this number of runs: that of a list whose runs go, where it has enough.
// Else it gets room for twice as many, since the lists that follow are longer, and memory costs nothing until
// it is written. It is not made to grow, for that would copy runs that nobody needs.
fn empty_list<A: Memory + Copy>(
    alloc: A,
    room: Vec<Run, A>,
    count: usize,
) -> Result<Vec<Run, A>, NoMemory>
    ensures empty { IfOk result (λ runs. runs.items ≡ []) }
    ensures memory { OnErr result (IsRefused A.refuses) }
{
    let mut runs = room;
    runs.clear();
    let mut wanted = count;
    if runs.capacity() < count {
        runs = Vec::new(alloc);
        // No map has more runs than there are code points.
        wanted = count.saturating_add(count).min(CODES as usize).max(count);
    }
    A::more_room_for(&mut runs, wanted)?;
    Ok(runs)
}

/// Lists the runs of the union of two maps, in the memory of `room` if that is enough. The runs of `room` go.
///
/// # Errors
///
/// `NoMemory` if there is no memory for the list.
pub fn runs_of_both<A: Memory + Copy>(
    alloc: A,
    room: Vec<Run, A>,
    a: &[Run],
    b: &[Run],
) -> Result<Vec<Run, A>, NoMemory>
    requires first { AreMapRuns a.now }
    requires second { AreMapRuns b.now }
    ensures spelled { IfOk result (λ v. spelled v.items ≡ united (spelled a.now) (spelled b.now)) }
    ensures runs { IfOk result (λ v. AreMapRuns v.items) }
    ensures memory { OnErr result (IsRefused A.refuses) }
{
    // As many as there can be where the maps agree: without them the list is copied as it grows.
    let mut runs = empty_list(alloc, room, a.len().saturating_add(b.len()))?;
    let start = Places {
        first: 0,
        second: 0,
    };
    let (mut ahead, mut places) = piece_of_both(a, b, start, 0);
    let mut from = 0;
    while let Some(piece) = ahead {
        let (run, after) = run_of_both(a, b, places, piece);
        A::push(&mut runs, run)?;
        let after = Position {
            places: after,
            code: run.last + 1,
        };
        let end = push_apart(a, b, after, &mut runs)?;
        from = end.code;
        (ahead, places) = piece_of_both(a, b, end.places, from);
    }
    Ok(runs)
}
