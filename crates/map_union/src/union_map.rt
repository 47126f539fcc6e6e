//! The map of a union of many files. It is this project's own, but for the groups of the mapping.
//! OpenType 1.9, cmap, Format 12: Segmented coverage.
ghost use Rattle.std.specs.Prelude.{◌≡◌, ◌≤◌, [], length, IfOk, MatchOption, OnErr};
ghost use Rattle.sfnt_bytes.specs.Memory.{IsRefused};
ghost use Rattle.codes.specs.CharacterMap.{AreCompatible, united};
ghost use Rattle.codes.specs.Runs.{IsRun, NoRun, groups_from, spelled};
ghost use Rattle.map_union.specs.RunLists.{AreMapRuns, map_in};

use crate::merging::{first_piece, runs_of_both};
use crate::run_list::{Hint, run_among};
use codes::{Pieces, Run, next_run};
use sfnt_bytes::{Memory, NoMemory};
use std::alloc::Allocator;
use std::cell::Cell;
use std::marker::Model;

/// The map of a union of files, in two lists of runs: `settled`, and `recent` for the files that were added
/// last. A file is merged with the short list alone. When that has cost as much as going over the long
/// one, the two become one: so a thousand small files do not go over all runs a thousand times.
#[derive(Drop)]
pub struct UnionMap<A: Allocator> {
    settled: Vec<Run, A>,
    recent: Vec<Run, A>,
    // Lists that are no longer needed, whose memory the next ones take.
    settled_room: Vec<Run, A>,
    recent_room: Vec<Run, A>,
    // How many runs were gone over since the two lists were one.
    passed: usize,
    // Where the runs that were read last stand.
    settled_hint: Cell<Hint>,
    recent_hint: Cell<Hint>,
}

// Its value is the two lists.
impl<A: Allocator> Model for UnionMap<A> {
    ghost use Rattle.map_union.specs.RunLists.{AreTwoLists, TwoLists};

    ghost Value = { TwoLists };

    ghost view = { λ m. record { settled = m.settled.items; recent = m.recent.items } };

    ghost invariant = { λ m. AreTwoLists (record { settled = m.settled.items; recent = m.recent.items }) };
}

impl<A: Allocator> Pieces for UnionMap<A> {
    ghost use Rattle.map_union.specs.RunLists.{map_in};

    ghost map_of = { map_in };

    fn piece(&self, from: u32) -> Option<Run> {
        first_piece(
            run_among(&self.settled, &self.settled_hint, from),
            run_among(&self.recent, &self.recent_hint, from),
        )
    }
}

impl<A: Allocator> UnionMap<A> {
    // Returns the run that begins at the least mapped code not below `from`, by the pieces of both lists.
    #[inline(never)]
    fn run_of_both(&self, from: u32) -> Option<Run>
        ensures { MatchOption result (NoRun (map_in self.now) from) (IsRun (map_in self.now) from) }
    {
        next_run(self, from)
    }

    /// Returns the run that begins at the least mapped code not below `from`. Where all runs stand in one
    /// list, that is read alone, and the run after is not looked at.
    pub fn next_run(&self, from: u32) -> Option<Run>
        ensures { MatchOption result (NoRun (map_in self.now) from) (IsRun (map_in self.now) from) }
    {
        if self.recent.is_empty() {
            return run_among(&self.settled, &self.settled_hint, from);
        }
        self.run_of_both(from)
    }

    /// Returns a number that the groups of the map do not exceed: no step goes over all of them.
    pub fn most_groups(&self) -> u32
        ensures most { length (groups_from (map_in self.now) 0) ≤ result }
        ensures small { result ≤ 0x220000 }
    {
        self.settled.len() as u32 + self.recent.len() as u32
    }
}

impl<A: Allocator + Copy> UnionMap<A> {
    /// Returns the map of one list of runs.
    pub fn of_runs(alloc: A, runs: Vec<Run, A>) -> UnionMap<A>
        requires { AreMapRuns runs.items }
        ensures { map_in result ≡ spelled runs.items }
    {
        UnionMap {
            settled: runs,
            recent: Vec::new(alloc),
            settled_room: Vec::new(alloc),
            recent_room: Vec::new(alloc),
            passed: 0,
            settled_hint: Cell::new(Hint::START),
            recent_hint: Cell::new(Hint::START),
        }
    }

    // Returns the map with more runs, which become the short list.
    fn with_first(self, runs: Vec<Run, A>) -> UnionMap<A>
        requires one { self.recent ≡ [] }
        requires runs { AreMapRuns runs.items }
        requires agree { AreCompatible (map_in self) (spelled runs.items) }
        ensures { map_in result ≡ united (map_in self) (spelled runs.items) }
    {
        UnionMap {
            settled: self.settled,
            recent: runs,
            settled_room: self.settled_room,
            recent_room: self.recent_room,
            passed: 0,
            settled_hint: Cell::new(Hint::START),
            recent_hint: Cell::new(Hint::START),
        }
    }
}

impl<A: Memory + Copy> UnionMap<A> {
    /// Returns the same map, of one list: it is quick to walk.
    ///
    /// # Errors
    ///
    /// `NoMemory` if there is no memory for the runs of the new list.
    pub fn settle(self, alloc: A) -> Result<UnionMap<A>, NoMemory>
        ensures same { IfOk result (λ map. map_in map ≡ map_in self) }
        ensures one { IfOk result (λ map. map.recent ≡ []) }
        ensures memory { OnErr result (IsRefused A.refuses) }
    {
        if self.recent.is_empty() {
            return Ok(self);
        }
        // The short list will do as room for the next one.
        drop(self.recent_room);
        let settled = runs_of_both(alloc, self.settled_room, &self.settled, &self.recent)?;
        Ok(UnionMap {
            settled,
            recent: Vec::new(alloc),
            settled_room: self.settled,
            recent_room: self.recent,
            passed: 0,
            settled_hint: Cell::new(Hint::START),
            recent_hint: Cell::new(Hint::START),
        })
    }

    // Returns the map with more runs, which are merged with the short list.
    fn merged_with_recent(
        self,
        alloc: A,
        runs: &[Run],
        passed: usize,
    ) -> Result<UnionMap<A>, NoMemory>
        requires runs { AreMapRuns runs.now }
        requires agree { AreCompatible (map_in self) (spelled runs.now) }
        ensures map { IfOk result (λ map. map_in map ≡ united (map_in self) (spelled runs.now)) }
        ensures memory { OnErr result (IsRefused A.refuses) }
    {
        let recent = runs_of_both(alloc, self.recent_room, &self.recent, runs)?;
        Ok(UnionMap {
            settled: self.settled,
            recent,
            settled_room: self.settled_room,
            recent_room: self.recent,
            passed,
            settled_hint: Cell::new(Hint::START),
            recent_hint: Cell::new(Hint::START),
        })
    }

    /// Returns the map with more runs, which give no code another glyph.
    ///
    /// # Errors
    ///
    /// `NoMemory` if there is no memory for the runs of the new list.
    pub fn with(self, alloc: A, runs: Vec<Run, A>) -> Result<UnionMap<A>, NoMemory>
        requires runs { AreMapRuns runs.items }
        requires agree { AreCompatible (map_in self) (spelled runs.items) }
        ensures map { IfOk result (λ map. map_in map ≡ united (map_in self) (spelled runs.items)) }
        ensures memory { OnErr result (IsRefused A.refuses) }
    {
        let passed = self.passed.saturating_add(self.recent.len());
        if passed < self.settled.len() && !self.recent.is_empty() {
            return self.merged_with_recent(alloc, &runs, passed);
        }
        Ok(self.settle(alloc)?.with_first(runs))
    }
}
