//! The texts and numbers of refusals, byte for byte as `check` prints them.
ghost use Rattle.std.specs.Prelude.{◌≡◌, Some};
ghost use Rattle.font_map.specs.Text.{map_error_number, map_error_text};

use crate::mapping::MapError;
use sfnt_bytes::numbers;
use std::error::Error;
use std::fmt;

impl fmt::Display for MapError {
    ghost output = { λ e. Some (map_error_text e) };

    fn fmt<W: fmt::Write>(&self, f: &mut fmt::Formatter<W>) -> fmt::Result {
        match self {
            MapError::NoMapping => f.write_str("no mapping"),
            MapError::BadCmap => f.write_str("bad cmap"),
        }
    }
}

impl Error for MapError {}

impl MapError {
    /// Returns the number of the refusal, 13 or 14.
    pub fn number(&self) -> u8
        ensures { result ≡ map_error_number self.now }
    {
        match self {
            MapError::NoMapping => numbers::NO_MAPPING,
            MapError::BadCmap => numbers::BAD_CMAP,
        }
    }
}
