//! Runs: neighbouring codes on neighbouring glyphs, as the groups of a cut have them.
//! OpenType 1.9, cmap, Format 12: Segmented coverage.
ghost use Rattle.std.specs.Prelude.{◌≡◌, ◌+◌, ◌≤◌, ℕ, MatchOption};
ghost use Rattle.codes.specs.CharacterMap.{clipped, mapped_codes};
ghost use Rattle.codes.specs.Runs.{IsNext, IsPiece, IsRun, NoRun};
ghost use Rattle.codes.specs.declared.code_points.TheConstants.{LAST_CODE};

use crate::code_points::LAST_CODE;

/// The codes `first` to `last`, which lie on `glyph` and the glyphs after it.
#[derive(Clone, Copy, Debug, PartialEq, Eq)]
pub struct Run {
    /// The first code.
    pub first: u32,
    /// The last code.
    pub last: u32,
    /// The glyph of the first code, never 0.
    pub glyph: u16,
}

impl Run {
    /// Returns the run of one code.
    pub fn of_code(code: u32, glyph: u16) -> Run
        ensures { result ≡ record { first = code; last = code; glyph = glyph } }
    {
        Run {
            first: code,
            last: code,
            glyph,
        }
    }
}

/// A character map that is walked by pieces of its runs.
pub trait Pieces {
    /// The map: 0 is "not mapped".
    ghost map_of: { Self → ℕ → ℕ };

    /// Returns the least mapped code not below `from`, and some codes after it on neighbouring glyphs.
    fn piece(&self, from: u32) -> Option<Run>
        ensures { MatchOption result (NoRun (map_of self.now) from) (IsPiece (map_of self.now) from) };
}

/// Returns the run that begins with a piece, and the first piece after it. A walk that goes on with that
/// piece searches none twice.
pub fn run_of<P: Pieces>(pieces: &P, piece: Run) -> (Run, Option<Run>)
    requires order { piece.first ≤ piece.last }
    requires small { piece.last ≤ LAST_CODE }
    ensures run { (from : ℕ) → IsPiece (P.map_of pieces.now) from piece →
        IsRun (P.map_of pieces.now) from result.0 }
    ensures small { result.0.last ≤ LAST_CODE }
    ensures behind { IsNext (P.map_of pieces.now) (result.0.last + 1) result.1 }
{
    let mut run = piece;
    while let Some(next) = pieces.piece(run.last + 1) {
        if next.first != run.last + 1 {
            return (run, Some(next));
        }
        if u32::from(next.glyph) != u32::from(run.glyph) + (next.first - run.first) {
            return (run, Some(next));
        }
        run.last = next.last;
    }
    (run, None)
}

/// Returns the run that begins at the least mapped code not below `from`.
pub fn next_run<P: Pieces>(pieces: &P, from: u32) -> Option<Run>
    ensures { MatchOption result (NoRun (P.map_of pieces.now) from) (IsRun (P.map_of pieces.now) from) }
{
    let piece = pieces.piece(from)?;
    let (run, _) = run_of(pieces, piece);
    Some(run)
}

/// Returns how many codes are mapped.
pub fn mapped_count<P: Pieces>(pieces: &P) -> u32
    ensures { result ≡ mapped_codes (P.map_of pieces.now) }
{
    let mut count = 0;
    let mut from = 0;
    while let Some(piece) = pieces.piece(from) {
        count += piece.last - piece.first + 1;
        from = piece.last + 1;
    }
    count
}

/// Returns the glyph of a code, and 0 where there is no such glyph or no such code.
pub fn clip(glyph: u64, glyphs: u16, code: u32) -> u16
    ensures { result ≡ clipped glyphs (λ _. glyph) code }
{
    if glyph < u64::from(glyphs) && code <= LAST_CODE {
        glyph as u16
    } else {
        0
    }
}
