//! Sets of glyphs.
ghost use Rattle.std.specs.Prelude.{◌≡◌, ◌+◌, ◌<◌, ◌≤◌, ◌&&◌, ◌||◌, ℕ, nat_eq, not, false, true, length, slice_set, IfOk, IsTrue, OnErr};
ghost use Rattle.font_glyph.specs.Marks.{NoMark, has};

use sfnt_bytes::{Memory, NoMemory};
use std::alloc::{Allocator, Global};
use std::marker::Model;

/// The number of marks that are looked at in one step.
const BLOCK: usize = 64;

// Returns whether this number of marks stands after a place and none of them is set. It looks at all of them,
// so that the compiler may take many at a time.
#[tactic(auto, unfolding(crate::specs::Marks::has))]
fn is_clear(marks: &[bool], at: usize) -> bool
    requires { at ≤ length marks.now }
    ensures room { IsTrue result → at + 64 ≤ length marks.now }
    ensures clear { IsTrue result → NoMark marks.now at (at + 64) }
{
    if marks.len() - at < BLOCK {
        return false;
    }
    let mut any = false;
    for g in at..at + BLOCK {
        any |= marks[g];
    }
    !any
}

// Passes over blocks in which no mark is set.
fn pass_blocks(marks: &[bool], from: usize) -> usize
    requires { from ≤ length marks.now }
    ensures order { from ≤ result }
    ensures within { result ≤ length marks.now }
    ensures passed { NoMark marks.now from result }
{
    let mut at = from;
    while is_clear(marks, at) {
        at += BLOCK;
    }
    at
}

// Returns the first mark from a place on that is set, or the end where there is none.
#[tactic(auto, unfolding(crate::specs::Marks::has))]
fn first_marked(marks: &[bool], from: usize) -> usize
    requires { from ≤ length marks.now }
    ensures order { from ≤ result }
    ensures within { result ≤ length marks.now }
    ensures passed { NoMark marks.now from result }
    ensures marked { result < length marks.now → has marks.now result ≡ true }
{
    if from < marks.len() && marks[from] {
        return from;
    }
    for g in pass_blocks(marks, from)..marks.len() {
        if marks[g] {
            return g;
        }
    }
    marks.len()
}

// Takes the marks of other glyphs away.
#[tactic(auto, unfolding(crate::specs::Marks::has))]
fn clear(marks: &mut [bool], others: &[bool])
    requires { length others.now ≡ length marks.old }
    ensures count { length marks.new ≡ length marks.old }
    ensures left { (g : ℕ) → has marks.new g ≡ (has marks.old g && not (has others.now g)) }
{
    for g in 0..marks.len() {
        marks[g] &= !others[g];
    }
}

/// A set of glyphs below a count, in a byte a glyph.
pub struct Marks<A: Allocator = Global> {
    marks: Vec<bool, A>,
}

// Its value is the list of answers: whether 0, 1, .. is marked, up to the count.
impl<A: Allocator> Model for Marks<A> {
    ghost use Rattle.std.specs.Prelude.{Bool, List};

    ghost Value = { List Bool };

    ghost view = { λ m. m.marks.items };
}

impl<A: Allocator> Drop for Marks<A> {
    fn drop(self) {
        let Marks { marks: _marks } = self;
    }
}

impl<A: Memory> Marks<A> {
    /// Returns a set with no mark at all, for numbers below `count`.
    #[tactic(auto, unfolding(crate::specs::Marks::has))]
    pub(crate) fn unmarked(alloc: A, count: usize) -> Result<Marks<A>, NoMemory>
        ensures count { IfOk result (λ marks. length marks ≡ count) }
        ensures none { IfOk result (λ marks. (g : ℕ) → has marks g ≡ false) }
        ensures memory { OnErr result (A.refuses count) }
    {
        let marks = alloc.filled(false, count)?;
        Ok(Marks { marks })
    }

    /// Returns a set with no mark at all, for glyphs below `count`.
    ///
    /// # Errors
    ///
    /// `NoMemory` if there is no room for a byte for each glyph.
    pub fn new(alloc: A, count: u16) -> Result<Marks<A>, NoMemory>
        ensures count { IfOk result (λ marks. length marks ≡ count) }
        ensures none { IfOk result (λ marks. (g : ℕ) → has marks g ≡ false) }
        ensures memory { OnErr result (A.refuses count) }
    {
        Marks::unmarked(alloc, count as usize)
    }

    /// Returns the same marks.
    ///
    /// # Errors
    ///
    /// `NoMemory` if there is no room for them.
    pub fn copied(&self, alloc: A) -> Result<Marks<A>, NoMemory>
        ensures same { IfOk result (λ marks. marks ≡ self.now) }
        ensures memory { OnErr result (A.refuses (length self.now)) }
    {
        let marks = alloc.copy_of(&self.marks)?;
        Ok(Marks { marks })
    }
}

impl<A: Allocator> Marks<A> {
    /// Lets all marks go but those below a count.
    pub(crate) fn narrow(&mut self, count: usize)
        requires { count ≤ length self.old }
        ensures count { length self.new ≡ count }
        ensures same { (g : ℕ) → g < count → has self.new g ≡ has self.old g }
    {
        self.marks.truncate(count);
    }

    /// Takes the marks of another set away.
    pub fn remove(&mut self, others: &Marks<A>)
        requires { length others.now ≡ length self.old }
        ensures count { length self.new ≡ length self.old }
        ensures left { (g : ℕ) → has self.new g ≡ (has self.old g && not (has others.now g)) }
    {
        clear(&mut self.marks, &others.marks);
    }

    /// Returns whether a glyph is marked.
    #[tactic(auto, unfolding(crate::specs::Marks::has))]
    pub fn has(&self, g: u16) -> bool
        requires { g < length self.now }
        ensures { result ≡ has self.now g }
    {
        self.marks[g as usize]
    }

    /// Returns the least marked glyph not below `from`, or the count where there is none.
    pub fn next_from(&self, from: usize) -> usize
        requires { from ≤ length self.now }
        ensures order { from ≤ result }
        ensures within { result ≤ length self.now }
        ensures passed { NoMark self.now from result }
        ensures marked { result < length self.now → has self.now result ≡ true }
    {
        first_marked(&self.marks, from)
    }

    /// Marks a glyph.
    #[tactic(auto, unfolding(crate::specs::Marks::has))]
    pub fn set(&mut self, g: u16)
        requires { g < length self.old }
        ensures exact { self.new ≡ slice_set self.old g true }
        ensures count { length self.new ≡ length self.old }
        ensures marked { (h : ℕ) → has self.new h ≡ (nat_eq h g || has self.old h) }
    {
        self.marks[g as usize] = true;
    }
}
