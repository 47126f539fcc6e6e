//! Laws of cuts: the contract of each function is what it says.
ghost use Rattle.cut_laws.specs.Dropping.{DroppingKeepsCut, DroppingKeepsFault};
ghost use Rattle.cut_laws.specs.Laws.{ClosedCutIsPlain, CutIsGivenBack, OwnCutIsRenewed};
ghost use Rattle.cut_laws.specs.Texts.{TextsAreShort};

/// The cut of a file for the glyphs that it keeps of itself, and for codes among which are all that it maps, is the file
/// written anew.
pub fn own_cut_is_renewed()
    ensures { OwnCutIsRenewed }
{}

/// So these glyphs and the codes that it maps give a current cut back, byte for byte.
pub fn cut_is_given_back()
    ensures { CutIsGivenBack }
{}

/// The cut for a closure is, without links, the closed cut.
pub fn closed_cut_is_plain()
    ensures { ClosedCutIsPlain }
{}

/// A font without some of the tables that full cuts drop is accepted, or refused, as it was, where its file has all
/// records and no table that full cuts keep begins within the directory.
pub fn dropping_keeps_fault()
    ensures { DroppingKeepsFault }
{}

/// So it is for cuts of a kind, and these are the same, byte for byte, where the kind reads none of the tables that go and
/// those that it reads begin after the directory too.
pub fn dropping_keeps_cut()
    ensures { DroppingKeepsCut }
{}

/// The text of each refusal, of a font, of files and of codes, has at most 64 bytes.
pub fn texts_are_short()
    ensures { TextsAreShort }
{}
