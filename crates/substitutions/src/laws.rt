//! What a GSUB may make of glyphs, and that its links and closed cuts have all of it: the contract of each function is
//! what it says. Which steps a shaper takes is left open, and what it adds of its own is none of them.
ghost use Rattle.substitutions.specs.Laws.{CleanedHasSameSteps, RunsAreWanted, RunsStayWithin, ShapedGlyphsAreKept, StepsAreLinks};
ghost use Rattle.substitutions.specs.WorkedSteps.{WorkedSteps};

/// What comes in the place of a glyph is what the table has links to.
pub fn steps_are_links()
    ensures { StepsAreLinks }
{}

/// A run from glyphs of a set that has the links of its glyphs ends in glyphs of this set.
pub fn runs_stay_within()
    ensures { RunsStayWithin }
{}

/// What a run makes of the glyphs of wanted characters is in the closure of what is wanted.
pub fn runs_are_wanted()
    ensures { RunsAreWanted }
{}

/// So a closed cut has what its font has of each glyph that a run makes of wanted text, and of its components.
pub fn shaped_glyphs_are_kept()
    ensures { ShapedGlyphsAreKept }
{}

/// A table without what varies, as layout cuts have it, has the same steps and runs as the table, unless its list of
/// lookups begins within its header.
pub fn cleaned_has_same_steps()
    ensures { CleanedHasSameSteps }
{}

/// What lists of glyphs become by small tables.
pub fn worked_steps()
    ensures { WorkedSteps }
{}
