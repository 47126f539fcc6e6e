//! The runs of a character map in a list, which is walked in place of the map. OpenType 1.9, cmap, Format 12:
//! Segmented coverage.
ghost use Rattle.std.specs.Prelude.{◌≡◌, MatchOption};
ghost use Rattle.codes.specs.Runs.{IsRun, NoRun, spelled};
ghost use Rattle.map_union.specs.RunLists.{AreMapRuns};

use font_map::Run;
use map_union::{Hint, run_among};
use std::alloc::Allocator;
use std::cell::Cell;
use std::marker::Model;

/// The runs of a map.
#[derive(Drop)]
pub(crate) struct ListedRuns<A: Allocator> {
    runs: Vec<Run, A>,
    // Where the run that was read last stands.
    hint: Cell<Hint>,
}

// Its value is the list.
impl<A: Allocator> Model for ListedRuns<A> {
    ghost use Rattle.std.specs.Prelude.{List};
    ghost use Rattle.codes.specs.declared.runs.Run.{Run};
    ghost use Rattle.map_union.specs.RunLists.{AreMapRuns};

    ghost Value = { List Run };

    ghost view = { λ l. l.runs.items };

    ghost invariant = { λ l. AreMapRuns l.runs.items };
}

impl<A: Allocator> ListedRuns<A> {
    /// Returns these runs, of which none has been read yet.
    pub(crate) fn new(runs: Vec<Run, A>) -> ListedRuns<A>
        requires { AreMapRuns runs.items }
        ensures { result ≡ runs.items }
    {
        ListedRuns {
            runs,
            hint: Cell::new(Hint::START),
        }
    }

    /// Returns the run that begins at the least code not below `from` that one of them has.
    #[inline(always)]
    pub(crate) fn next_run(&self, from: u32) -> Option<Run>
        ensures { MatchOption result (NoRun (spelled self.now) from) (IsRun (spelled self.now) from) }
    {
        run_among(&self.runs, &self.hint, from)
    }

    /// Returns the list.
    pub(crate) fn into_runs(self) -> Vec<Run, A>
        ensures { result.items ≡ self }
    {
        self.runs
    }
}
