//! Records in a list.
ghost use Rattle.std.specs.Prelude.{◌≡◌, ◌↔◌, length, IsSome, IfSome};
ghost use Rattle.table_tests.specs.Records.{AreRecords, bytes_of, listed_record};

use font_glyph::{Outlines, check_record};
use std::marker::Model;

/// The records of glyphs, each with components that are among these glyphs.
#[derive(Drop)]
pub struct Records {
    records: Vec<Vec<u8>>,
}

impl Model for Records {
    ghost use Rattle.std.specs.Prelude.{List, ℕ};
    ghost use Rattle.table_tests.specs.Records.{AreRecords, bytes_of};

    ghost Value = { List (List ℕ) };

    ghost view = { λ r. bytes_of r.records.items };

    ghost invariant = { λ r. AreRecords (bytes_of r.records.items) };
}

impl Records {
    /// Returns the records, where each has components that are among them, and there are 65,535 at most.
    pub fn new(records: Vec<Vec<u8>>) -> Option<Records>
        ensures good { IsSome result ↔ AreRecords (bytes_of records.items) }
        ensures value { IfSome result (λ r. r ≡ bytes_of records.items) }
    {
        if records.len() > 65535 {
            return None;
        }
        let count = records.len() as u16;
        for g in 0..records.len() {
            if check_record(records[g].as_slice(), count).is_err() {
                return None;
            }
        }
        Some(Records { records })
    }
}

impl Outlines for Records {
    ghost count_of = { length };

    ghost record_at = { listed_record };

    fn count(&self) -> u16 {
        self.records.len() as u16
    }

    fn record_of(&self, g: u16) -> &[u8] {
        self.records[g as usize].as_slice()
    }
}
