//! Laws of `gvar`, and small tables by hand: the contract of each function is what it says.
ghost use Rattle.font_variations.specs.Laws.{MadeAgainIsItself, MadeHasSize, MadeIsAccepted, MadeIsOfBytes, MadeIsReadBack, MadeOfPartsIsAccepted, OffsetsLeadInside};
ghost use Rattle.font_variations.specs.WorkedGvar.{WorkedBadGvar, WorkedGvar};

/// Each offset of a table that is accepted leads into it, and none is above the next one.
pub fn offsets_lead_inside()
    ensures { OffsetsLeadInside }
{}

/// A table that is made is accepted.
pub fn made_is_accepted()
    ensures { MadeIsAccepted }
{}

/// So is one that is made of the first 8 bytes and the shared tuples of a table that is accepted, of whatever data.
pub fn made_of_parts_is_accepted()
    ensures { MadeOfPartsIsAccepted }
{}

/// A table that is made has the first 8 bytes, the shared tuples and the data that it was made of.
pub fn made_is_read_back()
    ensures { MadeIsReadBack }
{}

/// Made again of what is read, it is itself.
pub fn made_again_is_itself()
    ensures { MadeAgainIsItself }
{}

/// How many bytes it has.
pub fn made_has_size()
    ensures { MadeHasSize }
{}

/// Where numbers fit into their fields, it is made of bytes if its parts are.
pub fn made_is_of_bytes()
    ensures { MadeIsOfBytes }
{}

/// What small tables have.
pub fn worked_gvar()
    ensures { WorkedGvar }
{}

/// Which small tables are refused.
pub fn worked_bad_gvar()
    ensures { WorkedBadGvar }
{}
