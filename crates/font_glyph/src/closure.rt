//! The glyphs that components reach.
ghost use Rattle.std.specs.Prelude.{◌≡◌, ◌+◌, ◌*◌, ◌<◌, ◌≤◌, ◌↔◌, ◌++◌, ◌∷◌, [], ℕ, All, Contains, IfOk, OnErr, OnOk, count_by, length, not, true};
ghost use Rattle.std.specs.List.{AllByRecursion};
ghost use Rattle.sfnt_bytes.specs.Memory.{IsRefusedUpTo};
ghost use Rattle.font_glyph.specs.Closure.{marks_after, work_after};
ghost use Rattle.font_glyph.specs.Marks.{has};
ghost use Rattle.font_glyph.specs.Reach.{Reach};
ghost use Rattle.font_glyph.specs.Record.{glyphs_of};

use crate::component::Components;
use crate::marks::Marks;
use crate::outlines::Outlines;
use sfnt_bytes::{Memory, NoMemory};

// Puts a glyph at the end of the work.
pub(crate) fn put<A: Memory>(work: &mut Vec<u16, A>, g: u16) -> Result<(), NoMemory>
    ensures put { OnOk result (work.new.items ≡ work.old.items ++ g ∷ []) }
    ensures memory { OnErr result (IsRefusedUpTo A.refuses (2 * (length work.old.items + 1))) }
{
    A::push(work, g)
}

// Marks each component, and puts those that had no mark at the end of the work. What has no mark and what waits are
// never more than all glyphs.
#[tactic(auto, using(crate::proofs::VisitLemmas::unmarked_less), unfolding(crate::specs::Marks::has))]
fn visit<A: Memory>(
    components: Components<'_>,
    marks: &mut Marks<A>,
    work: &mut Vec<u16, A>,
) -> Result<(), NoMemory>
    requires below { AllByRecursion (λ component. component.glyph < length marks.old) components }
    requires room { count_by not marks.old + length work.old.items ≤ length marks.old }
    ensures marks { OnOk result (marks.new ≡ marks_after (glyphs_of components.entry) marks.old) }
    ensures work { OnOk result (work.new.items ≡ work_after
        (glyphs_of components.entry) marks.old work.old.items) }
    ensures memory { OnErr result (IsRefusedUpTo A.refuses (2 * length marks.old)) }
{
    for component in components {
        if !marks.has(component.glyph) {
            marks.set(component.glyph);
            put(work, component.glyph)?;
        }
    }
    Ok(())
}

// Returns the marked glyphs, in a list that has room for all others.
pub(crate) fn marked<A: Memory>(
    alloc: A,
    marks: &Marks<A>,
    count: u16,
) -> Result<Vec<u16, A>, NoMemory>
    requires { length marks.now ≡ count }
    ensures all { IfOk result (λ work. (g : ℕ) → has marks.now g ≡ true → Contains work.items g) }
    ensures only { IfOk result (λ work. All (λ g. (g < count) × (has marks.now g ≡ true)) work.items) }
    ensures length { IfOk result (λ work. length work.items + count_by not marks.now ≡ count) }
    ensures memory { OnErr result (IsRefusedUpTo A.refuses (2 * count)) }
{
    let mut work = alloc.room_for(count as usize)?;
    for g in 0..count {
        if marks.has(g) {
            put(&mut work, g)?;
        }
    }
    Ok(work)
}

/// Marks the glyphs that chains of components reach from the seeds, and no others.
///
/// Each glyph is looked at once at the most, so the time is linear in the components.
///
/// # Errors
///
/// `NoMemory` if there is no room for two bytes for each glyph, or for fewer.
pub fn close<O: Outlines, A: Memory + Copy>(
    alloc: A,
    outlines: &O,
    seeds: &Marks<A>,
) -> Result<Marks<A>, NoMemory>
    requires { length seeds.now ≡ O.count_of outlines.now }
    ensures count { IfOk result (λ marks. length marks ≡ O.count_of outlines.now) }
    ensures reached { IfOk result (λ marks. (g : ℕ) → has marks g ≡ true ↔ Reach (O.record_at outlines.now)
        (has seeds.now) g) }
    ensures memory { OnErr result (IsRefusedUpTo A.refuses (2 * O.count_of outlines.now)) }
{
    let mut marks = seeds.copied(alloc)?;
    let mut work = marked(alloc, seeds, outlines.count())?;
    while let Some(g) = work.pop() {
        visit(Components::of(outlines.record_of(g)), &mut marks, &mut work)?;
    }
    Ok(marks)
}
