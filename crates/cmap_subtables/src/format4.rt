//! Segments, each of codes that share a delta or lie on an array. OpenType 1.9, cmap, Format 4:
//! Segment mapping to delta values.
//!
//! A subtable `s` is given with all bytes of `cmap` after it.
ghost use Rattle.std.specs.Prelude.{◌≡◌, ◌+◌, ◌*◌, ◌<◌, ◌≤◌, ◌^◌, ◌↔◌, ℕ, IsTrue, IfSome, MatchOption, drop, find, length, [], ◌∷◌};
ghost use Rattle.codes.specs.CharacterMap.{IsUnmapped, clipped};
ghost use Rattle.cmap_subtables.specs.Format4.{HasOrderedSegments, HasSegments, entry_or_zero, glyph_by, reaches, segment_count, segment_glyph, segment_in, segments_of};
ghost use Rattle.codes.specs.Order.{IsFirstReaching};
ghost use Rattle.cmap_subtables.specs.Inside.{glyph_by_delta, glyph_of_segment, segment_end, segment_nth};
ghost use Rattle.codes.specs.Runs.{IsNext, IsPiece, IsRun, NoRun};
ghost use Rattle.codes.specs.declared.code_points.TheConstants.{CODES};

use codes::{ANYWHERE, CODES, Ends, Run, clip, first_reaching};
use sfnt_bytes::be16;
use std::marker::Model;

/// A segment as it is listed: nothing of it is checked.
#[derive(Clone, Copy, Debug, PartialEq, Eq)]
pub struct Segment {
    /// startCode
    pub first: u16,
    /// endCode
    pub last: u16,
    /// idDelta
    pub delta: u16,
    /// idRangeOffset
    pub offset: u16,
    /// Where idRangeOffset stands, from which it counts.
    pub place: usize,
}

/// Returns segCountX2, halved.
#[tactic(auto, using(crate::proofs::SegmentLemmas::segments_end), unfolding(crate::specs::Format4::segment_count))]
pub fn count_segments(s: &[u8]) -> usize
    requires { 16 ≤ length s.now }
    ensures value { result ≡ segment_count s.now }
    ensures end { drop result (segments_of s.now) ≡ [] }
    ensures small { result < 32768 }
{
    be16(s, 6) as usize / 2
}

#[tactic(auto, unfolding(crate::specs::Format4::segment_in))]
fn read_segment(s: &[u8], i: usize) -> Segment
    requires room { HasSegments s.now }
    requires there { i < segment_count s.now }
    ensures value { result ≡ segment_in s.now i }
    ensures near { result.place ≤ length s.now }
{
    let n = count_segments(s);
    Segment {
        first: be16(s, 16 + 2 * n + 2 * i),
        last: be16(s, 14 + 2 * i),
        delta: be16(s, 16 + 4 * n + 2 * i),
        offset: be16(s, 16 + 6 * n + 2 * i),
        place: 16 + 6 * n + 2 * i,
    }
}

#[tactic(auto, using(crate::proofs::SegmentLemmas::segment_is, crate::proofs::SegmentLemmas::segments_step))]
fn segment_at(s: &[u8], i: usize) -> Segment
    requires room { HasSegments s.now }
    requires there { i < segment_count s.now }
    ensures value { result ≡ segment_nth (segments_of s.now) i }
    ensures next { drop i (segments_of s.now) ≡ result ∷ drop (i + 1) (segments_of s.now) }
    ensures near { result.place ≤ length s.now }
{
    read_segment(s, i)
}

// Reads endCode alone, which is all that a search reads.
#[tactic(auto, using(crate::proofs::SegmentLemmas::segment_is, crate::proofs::SegmentLemmas::segments_step), unfolding(crate::specs::Format4::segment_in))]
fn end_at(s: &[u8], i: usize) -> u16
    requires room { HasSegments s.now }
    requires there { i < segment_count s.now }
    ensures value { result ≡ segment_end s.now i }
    ensures next { drop i (segments_of s.now) ≡ segment_nth (segments_of s.now) i ∷ drop (i + 1)
        (segments_of s.now) }
{
    be16(s, 14 + 2 * i)
}

// Returns whether each segment has a code, and lies strictly above the one before it.
fn has_ordered_segments(s: &[u8]) -> bool
    requires { HasSegments s.now }
    ensures { IsTrue result ↔ HasOrderedSegments s.now }
{
    let count = count_segments(s);
    let mut low: u32 = 0;
    for i in 0..count {
        let segment = segment_at(s, i);
        if u32::from(segment.first) < low || segment.last < segment.first {
            return false;
        }
        low = u32::from(segment.last) + 1;
    }
    true
}

// Returns the place of the first segment, from a place on, whose endCode is at least the code. No segment
// before that place has such an endCode.
pub fn walk_place(s: &[u8], start: usize, code: u32) -> usize
    requires room { HasSegments s.now }
    requires within { start ≤ segment_count s.now }
    requires before { (k : ℕ) → k < start → segment_end s.now k < code }
    ensures { IsFirstReaching (segment_end s.now) (segment_count s.now) code result }
{
    let count = count_segments(s);
    for i in start..count {
        if code <= u32::from(end_at(s, i)) {
            return i;
        }
    }
    count
}

// Returns the segment that decides a code.
fn segment_of(s: &[u8], place: usize, code: u32) -> Option<Segment>
    requires room { HasSegments s.now }
    requires place { IsFirstReaching (segment_end s.now) (segment_count s.now) code place }
    ensures value { result ≡ find (reaches code) (segments_of s.now) }
    ensures near { IfSome result (λ segment. segment.place ≤ length s.now) }
    ensures ends { IfSome result (λ segment. code ≤ segment.last) }
{
    if place >= count_segments(s) {
        return None;
    }
    Some(segment_at(s, place))
}

// Returns the entry of glyphIdArray at a place, wherever in `cmap` that is.
#[tactic(auto, unfolding(crate::specs::Format4::entry_or_zero))]
fn entry_at(s: &[u8], at: usize) -> u16
    requires { at + 2 < 2 ^ 64 }
    ensures { result ≡ entry_or_zero s.now at }
{
    if at + 2 <= s.len() { be16(s, at) } else { 0 }
}

// Returns what a segment gives a code up to its end.
#[tactic(auto, unfolding(crate::specs::Format4::glyph_by))]
fn glyph_by(s: &[u8], segment: Segment, code: u32) -> u16
    requires near { segment.place ≤ length s.now }
    requires low { code < 65536 }
    ensures { result ≡ glyph_by s.now segment code }
{
    let start = u32::from(segment.first);
    let delta = u32::from(segment.delta);
    if code < start {
        return 0;
    }
    if segment.offset == 0 {
        return ((code + delta) % 65536) as u16;
    }
    let at = segment.place + usize::from(segment.offset) + 2 * (code - start) as usize;
    let entry = entry_at(s, at);
    if entry == 0 {
        return 0;
    }
    ((u32::from(entry) + delta) % 65536) as u16
}

// Returns the codes from a given one on that a segment alone maps to one of the glyphs by its delta. The
// glyphs go on at 0 after 65,535, once at the most.
fn run_by_delta(segment: Segment, from: u32, glyphs: u16) -> Option<Run>
    ensures { MatchOption result (NoRun (clipped glyphs (glyph_by_delta segment)) from)
        (IsPiece (clipped glyphs (glyph_by_delta segment)) from) }
{
    let end = u32::from(segment.last);
    let mut first = from.max(u32::from(segment.first));
    if end < first {
        return None;
    }
    let mut glyph = (first + u32::from(segment.delta)) % 65536;
    if glyph == 0 {
        first += 1;
        glyph = 1;
    } else if u32::from(glyphs) <= glyph {
        first += 65537 - glyph;
        glyph = 1;
    }
    if end < first || u32::from(glyphs) <= glyph {
        return None;
    }
    let last = end.min(first + (u32::from(glyphs) - 1 - glyph));
    Some(Run {
        first,
        last,
        glyph: glyph as u16,
    })
}

// This number of codes is looked at after a piece: a wanted set may ask for every other code of a segment.
const AHEAD: u32 = 64;

// A piece, and the next codes that a segment alone maps to the glyphs after it, code by code: who walks over a
// map looks for a segment but once for them.
fn along_codes(s: &[u8], segment: Segment, glyphs: u16, piece: Run) -> Run
    requires near { segment.place ≤ length s.now }
    requires order { piece.first ≤ piece.last }
    ensures { (from : ℕ) → IsPiece (clipped glyphs (glyph_of_segment s.now segment)) from piece →
        IsPiece (clipped glyphs (glyph_of_segment s.now segment)) from result }
{
    let stop = u32::from(segment.last).min(piece.last.saturating_add(AHEAD));
    let mut run = piece;
    while run.last < stop {
        let code = run.last + 1;
        let glyph = clip(u64::from(glyph_by(s, segment, code)), glyphs, code);
        if u32::from(glyph) != u32::from(run.glyph) + (code - run.first) {
            return run;
        }
        run.last = code;
    }
    run
}

// Returns the first codes from a given one on that a segment alone maps to neighbouring glyphs, code by code.
fn run_by_codes(s: &[u8], segment: Segment, from: u32, glyphs: u16) -> Option<Run>
    requires near { segment.place ≤ length s.now }
    ensures { MatchOption result (NoRun (clipped glyphs (glyph_of_segment s.now segment)) from)
        (IsPiece (clipped glyphs (glyph_of_segment s.now segment)) from) }
{
    for code in from..u32::from(segment.last) + 1 {
        let glyph = clip(u64::from(glyph_by(s, segment, code)), glyphs, code);
        if glyph != 0 {
            return Some(along_codes(s, segment, glyphs, Run::of_code(code, glyph)));
        }
    }
    None
}

// Returns the codes from a given one on that a segment alone maps to one of the glyphs.
fn run_in_segment(s: &[u8], segment: Segment, from: u32, glyphs: u16) -> Option<Run>
    requires near { segment.place ≤ length s.now }
    ensures { MatchOption result (NoRun (clipped glyphs (glyph_of_segment s.now segment)) from)
        (IsPiece (clipped glyphs (glyph_of_segment s.now segment)) from) }
{
    if segment.offset == 0 {
        return run_by_delta(segment, from, glyphs);
    }
    run_by_codes(s, segment, from, glyphs)
}

// A piece of the map from a code on, or none up to a stop; and the stop. The first listed segment that
// ends at a code or above it decides all codes from there to its end, in whatever order they stand.
fn stretch_by(s: &[u8], found: Option<Segment>, glyphs: u16, from: u32) -> (Option<Run>, u32)
    requires low { from < 65536 }
    requires value { found ≡ find (reaches from) (segments_of s.now) }
    requires near { IfSome found (λ segment. segment.place ≤ length s.now) }
    requires ends { IfSome found (λ segment. from ≤ segment.last) }
    ensures order { from < result.1 }
    ensures small { result.1 ≤ CODES }
    ensures found { MatchOption result.0 (IsUnmapped (clipped glyphs (segment_glyph s.now)) from result.1)
        (IsPiece (clipped glyphs (segment_glyph s.now)) from) }
{
    match found {
        Some(segment) => (
            run_in_segment(s, segment, from, glyphs),
            u32::from(segment.last) + 1,
        ),
        None => (None, CODES),
    }
}

// Returns the glyph of a code by the segment that decides it.
#[tactic(auto, unfolding(crate::specs::Format4::segment_glyph))]
pub fn glyph_at(s: &[u8], place: usize, glyphs: u16, code: u32) -> u16
    requires room { HasSegments s.now }
    requires low { code < 65536 }
    requires place { IsFirstReaching (segment_end s.now) (segment_count s.now) code place }
    ensures { result ≡ clipped glyphs (segment_glyph s.now) code }
{
    match segment_of(s, place, code) {
        Some(segment) => clip(u64::from(glyph_by(s, segment, code)), glyphs, code),
        None => 0,
    }
}

// Returns the first piece from a code on, for segments in any order; and the place of the segment that has
// it.
fn walk_piece(s: &[u8], glyphs: u16, from: u32) -> (Option<Run>, usize)
    requires { HasSegments s.now }
    ensures piece { IsNext (clipped glyphs (segment_glyph s.now)) from result.0 }
    ensures within { result.1 ≤ segment_count s.now }
    ensures before { IfSome result.0 (λ run. (k : ℕ) → k < result.1 → segment_end s.now k < run.first) }
{
    let mut at = from;
    let mut place = 0;
    while at <= 0xFFFF {
        place = walk_place(s, place, at);
        let (found, stop) = stretch_by(s, segment_of(s, place, at), glyphs, at);
        if let Some(run) = found {
            return (Some(run), place);
        }
        at = stop;
    }
    (None, place)
}

// Returns the run that begins at the least mapped code from a given one on, for segments in any order.
//
// The segment that decides a code stands in no place before the one that decides the code below it.
// So one walk over the segments serves the whole run, and the code after it.
fn walk_run(s: &[u8], glyphs: u16, from: u32) -> Option<Run>
    requires { HasSegments s.now }
    ensures { MatchOption result (NoRun (clipped glyphs (segment_glyph s.now)) from)
        (IsRun (clipped glyphs (segment_glyph s.now)) from) }
{
    let (found, mut place) = walk_piece(s, glyphs, from);
    let mut run = found?;
    while run.last < 0xFFFF {
        let code = run.last + 1;
        place = walk_place(s, place, code);
        let glyph = glyph_at(s, place, glyphs, code);
        if u32::from(glyph) != u32::from(run.glyph) + (code - run.first) {
            return Some(run);
        }
        run.last = code;
    }
    Some(run)
}

/// All segments of a subtable.
///
/// They may stand in any order and overlap: they are searched by halves where they stand in order, and
/// one by one elsewhere.
#[derive(Drop)]
pub struct Segments<'a> {
    bytes: &'a [u8],
    ordered: bool,
}

// Its value is the bytes of the subtable.
impl<'a> Model for Segments<'a> {
    ghost use Rattle.std.specs.Prelude.{ℕ, List, IsTrue};
    ghost use Rattle.cmap_subtables.specs.Format4.{HasOrderedSegments, HasSegments};

    ghost Value = { List ℕ };

    ghost view = { λ s. s.bytes.now };

    ghost invariant = { λ s. HasSegments s.bytes.now × (IsTrue s.ordered → HasOrderedSegments s.bytes.now) };
}

impl<'a> Segments<'a> {
    /// Returns the segments of a subtable, and finds out whether they stand in order.
    pub fn of(s: &'a [u8]) -> Segments<'a>
        requires { HasSegments s.now }
        ensures { result ≡ s.now }
    {
        let ordered = has_ordered_segments(s);
        Segments { bytes: s, ordered }
    }

    /// Returns the bytes of the subtable.
    pub fn bytes(&self) -> &[u8]
        ensures value { result.now ≡ self.now }
        ensures sound { HasSegments self.now }
    {
        self.bytes
    }

    /// Returns whether the segments stand in order.
    pub fn is_ordered(&self) -> bool {
        self.ordered
    }

    // Returns the segment that decides a code.
    #[tactic(auto, using(crate::proofs::SegmentLemmas::segment_ascends))]
    fn find(&self, code: u32) -> Option<Segment>
        ensures value { result ≡ find (reaches code) (segments_of self.now) }
        ensures near { IfSome result (λ segment. segment.place ≤ length self.now) }
        ensures ends { IfSome result (λ segment. code ≤ segment.last) }
    {
        let place = if self.ordered {
            first_reaching(self, ANYWHERE, code)
        } else {
            walk_place(self.bytes, 0, code)
        };
        segment_of(self.bytes, place, code)
    }

    /// Returns the glyph of a code by the first listed segment that ends at the code or above it; 0 where
    /// none does, and above 0xFFFF.
    #[tactic(auto, unfolding(crate::specs::Format4::segment_glyph))]
    pub fn glyph(&self, code: u32) -> u16
        ensures { result ≡ segment_glyph self.now code }
    {
        if code > 0xFFFF {
            return 0;
        }
        match self.find(code) {
            Some(segment) => glyph_by(self.bytes, segment, code),
            None => 0,
        }
    }

    /// Returns a piece of the map from a code on, or none up to a stop; and the stop.
    pub fn stretch(&self, glyphs: u16, from: u32) -> (Option<Run>, u32)
        requires low { from < CODES }
        ensures order { from < result.1 }
        ensures small { result.1 ≤ CODES }
        ensures found { MatchOption result.0
            (IsUnmapped (clipped glyphs (segment_glyph self.now)) from result.1)
            (IsPiece (clipped glyphs (segment_glyph self.now)) from) }
    {
        if from > 0xFFFF {
            return (None, CODES);
        }
        stretch_by(self.bytes, self.find(from), glyphs, from)
    }

    /// Returns the first piece of the map from a code on and a hint where the next one may be, or `None`
    /// where the segments stand out of order.
    pub fn piece_by_hint(&self, glyphs: u16, hint: usize, from: u32) -> Option<(Option<Run>, usize)>
        ensures { IfSome result (λ found. IsNext (clipped glyphs (segment_glyph self.now)) from found.0) }
    {
        if self.ordered {
            return Some(piece_near(self, glyphs, hint, from));
        }
        None
    }

    /// Returns the run that begins at the least mapped code from a given one on, by one walk over the segments.
    pub fn run_by_walk(&self, glyphs: u16, from: u32) -> Option<Run>
        ensures { MatchOption result (NoRun (clipped glyphs (segment_glyph self.now)) from)
            (IsRun (clipped glyphs (segment_glyph self.now)) from) }
    {
        walk_run(self.bytes, glyphs, from)
    }
}

impl<'a> Ends for Segments<'a> {
    ghost use Rattle.cmap_subtables.specs.Format4.{segment_count};
    ghost use Rattle.cmap_subtables.specs.Inside.{segment_end};

    ghost count_of = { segment_count };

    ghost end_of = { segment_end };

    fn count(&self) -> usize {
        count_segments(self.bytes)
    }

    fn end_at(&self, i: usize) -> u32 {
        u32::from(end_at(self.bytes, i))
    }
}

// Returns the first piece of the map from a code on, where segments stand in order, and the place of the
// segment that has it. Where that is the place that the hint names or one soon after it, no segment is
// searched for.
#[tactic(auto, using(crate::proofs::SegmentLemmas::segment_ascends))]
fn piece_near(segments: &Segments<'_>, glyphs: u16, hint: usize, from: u32) -> (Option<Run>, usize)
    requires { HasOrderedSegments segments.now }
    ensures { IsNext (clipped glyphs (segment_glyph segments.now)) from result.0 }
{
    let s = segments.bytes();
    let mut at = from;
    let mut place = hint;
    while at <= 0xFFFF {
        place = first_reaching(segments, place, at);
        let (found, stop) = stretch_by(s, segment_of(s, place, at), glyphs, at);
        if let Some(run) = found {
            return (Some(run), place);
        }
        at = stop;
    }
    (None, place)
}
