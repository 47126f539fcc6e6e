//! What the limit of a table is: the contract of a function with an empty body. This project's own.
ghost use Rattle.std.specs.Prelude.{◌≡◌};
ghost use Rattle.font_write.specs.declared.source.TheConstants.{MAX_TABLE};

/// A table of a source has at most this number of bytes.
pub fn table_limit_is()
    ensures { MAX_TABLE ≡ 1073741824 }
{}
