//! The union of two fonts in cut form, of which a join is made. It is this project's own.
ghost use Rattle.std.specs.Prelude.{◌≡◌, Err, None, MatchResult};
ghost use Rattle.sfnt_bytes.specs.Memory.{IsRefused};
ghost use Rattle.font_theory.specs.Content.{content, everything, plain_font};
ghost use Rattle.font_theory.specs.Cut.{content_of_all};
ghost use Rattle.font_theory.specs.Agreement.{both};
ghost use Rattle.font_join.specs.Join.{IsUnionRefusal, union_fault};
ghost use Rattle.font_theory.specs.declared.kinds.Kind.TheVariants.{Full};
ghost use Rattle.font_theory.specs.Kinds.{format_of, spelled_by};
ghost use Rattle.font_join.specs.Union.{content_in};
ghost use Rattle.font_join.specs.declared.join_error.JoinError.TheVariants.{NoMemory as JoinNoMemory};

use crate::join_error::JoinError;
use crate::union::Union;
use font_file::Font;
use font_theory::Kind;
use sfnt_bytes::Memory;
use std::alloc::Global;

/// What the join of two fonts is made of: the tables that they share, the codes and the outlines of
/// both.
pub type Joined<'a, A = Global> = Union<'a, 'a, A>;

impl<'a, A: Memory + Copy> Union<'a, 'a, A> {
    /// Returns the union of two fonts in cut form, each current or old. All memory that a join needs
    /// before its file is made is asked for here.
    ///
    /// # Errors
    ///
    /// `NoMemory` if out of memory, and else the first of `NotACut`, of the first font and then
    /// of the second, `DifferentTable`, `DifferentMapping`, `DifferentGlyph` and `TableTooLong` that applies.
    pub fn new(alloc: A, x: &'a Font<'a>, y: &'a Font<'a>) -> Result<Joined<'a, A>, JoinError>
        ensures exact { MatchResult result (λ joined. (content_in joined
            ≡ both (content (plain_font x.entry.now) everything)
            (content (plain_font y.entry.now) everything))
            × (union_fault (format_of Full) x.entry.now y.entry.now ≡ None))
            (IsUnionRefusal (format_of Full) x.entry.now y.entry.now) }
        ensures memory { result ≡ Err JoinNoMemory → IsRefused A.refuses }
    {
        Union::of_two(alloc, Kind::Full, x, y)
    }

    /// Returns the union of two cuts of a kind, as [`Joined::new`] does for full ones.
    ///
    /// # Errors
    ///
    /// Those of [`Joined::new`], and `Font` of a font that is refused for cuts of the kind, right before
    /// `NotACut` of it.
    pub fn of_two(
        alloc: A,
        kind: Kind,
        x: &'a Font<'a>,
        y: &'a Font<'a>,
    ) -> Result<Joined<'a, A>, JoinError>
        ensures exact { MatchResult result (λ joined. (content_in joined ≡ spelled_by kind
            (both (content_of_all (format_of kind) x.entry.now)
            (content_of_all (format_of kind) y.entry.now)))
            × (union_fault (format_of kind) x.entry.now y.entry.now ≡ None))
            (IsUnionRefusal (format_of kind) x.entry.now y.entry.now) }
        ensures memory { result ≡ Err JoinNoMemory → IsRefused A.refuses }
    {
        let one = Union::of_first(alloc, kind, x)?;
        let both = one.add(alloc, y)?;
        Ok(both.settle(alloc)?)
    }
}
