//! `join`: the join of cuts.
ghost use Rattle.std.specs.Prelude.{◌≡◌, ◌≤◌, ℕ, Bool, List, Err, IfErr, IfOk, MatchResult, OnOk, false, length, map, true};
ghost use Rattle.font_subset.specs.CutOfKind.{cut_of};
ghost use Rattle.font_theory.specs.Content.{Wanted};
ghost use Rattle.font_theory.specs.declared.kinds.Kind.TheVariants.{Full};
ghost use Rattle.sfnt_bytes.specs.Memory.{IsRefused};
ghost use Rattle.sfnt_bytes.specs.declared.directory.TheConstants.{MAX_FILE};
ghost use Rattle.font_theory.specs.Kinds.{format_of};
ghost use Rattle.font_theory.specs.Tree.{union_below};
ghost use Rattle.streams.specs.Outlet.{IsFlushed, WentOut, broken_of, fresh_of};
ghost use Rattle.commands.specs.JoinRun.{AreFresh, AreGot, AreSpent, GotCuts, IsRightlyRefused, JoinStops, OnlySize, ReadStops, SendsJoin, SendsLeast};

use crate::run_error::RunError;
use font_join::join_all_of_kind_into;
use font_theory::Kind;
use sfnt_bytes::Memory;
use std::io::Read;
use streams::{Flushes, Inlet, Outlet};

// Reads each inlet to its end, in order. Where a reader fails, its inlet is broken, and no other.
fn read_each<R: Read, A: Memory + Copy>(
    alloc: A,
    inlets: &mut [Inlet<R>],
) -> Result<Vec<Vec<u8, A>, A>, RunError>
    requires { AreFresh inlets.old }
    ensures got { IfOk result (λ files. AreGot R.remaining inlets.old (map (λ v. v.items) files.items)) }
    ensures spent { OnOk result (AreSpent inlets.new) }
    ensures stops { IfErr result (ReadStops R.remaining inlets.old inlets.new) }
    ensures memory { result ≡ Err RunError.Memory → IsRefused A.refuses }
{
    let mut files = alloc.room_for(inlets.len())?;
    for k in 0..inlets.len() {
        let file = inlets[k].read_all(alloc)?;
        A::more_room_for(&mut files, 1)?;
        let Ok(()) = files.push(file) else {
            unreachable!()
        };
    }
    Ok(files)
}

/// Reads cuts of a kind to their ends, in order, sends their join, and returns its size in bytes.
///
/// # Errors
///
/// `Read` where a reader fails: its inlet is broken, and no other. `Memory` if out of memory, and
/// `Join` with the first step that is refused, a size that is too large among them. Nothing was sent in
/// these cases. `Write` where the writer fails.
pub fn run_join_of_kind<R: Read, W: Flushes, A: Memory + Copy>(
    alloc: A,
    kind: Kind,
    inlets: &mut [Inlet<R>],
    outlet: &mut Outlet<W>,
) -> Result<u64, RunError>
    requires inlets { AreFresh inlets.old }
    requires outlet { fresh_of outlet.old ≡ true }

    ensures sent { IfOk result
        (SendsJoin (format_of kind) R.remaining W.contents inlets.old outlet.old outlet.new) }
    ensures small { IfOk result (λ size. size ≤ MAX_FILE) }
    ensures whole { OnOk result (AreSpent inlets.new × (broken_of outlet.new ≡ false)) }
    ensures flushed { OnOk result (IsFlushed W.held outlet.new) }
    ensures cuts { (F : List ℕ) (A : ℕ → Wanted) → GotCuts (format_of kind) R.remaining inlets.old F A →
        MatchResult result (λ size. let z = cut_of kind F (union_below A (length inlets.old)) in
        (size ≡ length z) × WentOut W.contents outlet.old outlet.new z)
        (OnlySize (format_of kind) F A (length inlets.old)) }
    ensures upper { IfOk result
        (SendsLeast (format_of kind) R.remaining W.contents inlets.old outlet.old outlet.new) }
    ensures refused { IfErr result (IsRightlyRefused (format_of kind) R.remaining inlets.old) }

    ensures error { IfErr result
        (JoinStops (format_of kind) R.remaining W.contents inlets.old inlets.new outlet.old outlet.new) }
    ensures memory { result ≡ Err RunError.Memory → IsRefused A.refuses }
{
    let files = read_each(alloc, inlets)?;
    let size = join_all_of_kind_into(alloc, kind, &files, outlet)?;
    outlet.finish()?;
    Ok(size)
}

/// Reads cuts to their ends, in order, sends their join, and returns its size in bytes.
///
/// # Errors
///
/// `Read` where a reader fails: its inlet is broken, and no other. `Memory` if out of memory, and
/// `Join` with the first step that is refused, a size that is too large among them. Nothing was sent in
/// these cases. `Write` where the writer fails.
pub fn run_join<R: Read, W: Flushes, A: Memory + Copy>(
    alloc: A,
    inlets: &mut [Inlet<R>],
    outlet: &mut Outlet<W>,
) -> Result<u64, RunError>
    requires inlets { AreFresh inlets.old }
    requires outlet { fresh_of outlet.old ≡ true }

    ensures sent { IfOk result
        (SendsJoin (format_of Full) R.remaining W.contents inlets.old outlet.old outlet.new) }
    ensures small { IfOk result (λ size. size ≤ MAX_FILE) }
    ensures whole { OnOk result (AreSpent inlets.new × (broken_of outlet.new ≡ false)) }
    ensures flushed { OnOk result (IsFlushed W.held outlet.new) }
    ensures cuts { (F : List ℕ) (A : ℕ → Wanted) → GotCuts (format_of Full) R.remaining inlets.old F A →
        MatchResult result (λ size. let z = cut_of Full F (union_below A (length inlets.old)) in
        (size ≡ length z) × WentOut W.contents outlet.old outlet.new z)
        (OnlySize (format_of Full) F A (length inlets.old)) }
    ensures upper { IfOk result
        (SendsLeast (format_of Full) R.remaining W.contents inlets.old outlet.old outlet.new) }
    ensures refused { IfErr result (IsRightlyRefused (format_of Full) R.remaining inlets.old) }

    ensures error { IfErr result
        (JoinStops (format_of Full) R.remaining W.contents inlets.old inlets.new outlet.old outlet.new) }
    ensures memory { result ≡ Err RunError.Memory → IsRefused A.refuses }
{
    run_join_of_kind(alloc, Kind::Full, inlets, outlet)
}
