//! Laws of variation sequences: the contract of each function is what it says.
ghost use Rattle.variation_sequences.specs.Laws.{FoundIsListed, SubtableHasSize, SubtableIsReadBack};

/// What is said of a selector after a code is what is listed for them, if anything.
pub fn found_is_listed()
    ensures { FoundIsListed }
{}

/// A subtable that is made has the size that it states.
pub fn made_has_size()
    ensures { SubtableHasSize }
{}

/// Pairs in order that are written are read back, also where bytes follow.
pub fn made_is_read_back()
    ensures { SubtableIsReadBack }
{}
