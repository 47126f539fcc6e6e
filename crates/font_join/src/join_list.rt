//! Joins of a list of files, one after the other. They are this project's own, and in no standard.
ghost use Rattle.std.specs.Prelude.{◌≡◌, ◌≢◌, ◌≤◌, ℕ, List, length, map, false, true, Err, IfErr, IfOk, IsSome, MatchResult, None, OnOk, ◌<◌};
ghost use Rattle.sfnt_bytes.specs.Memory.{IsRefused};
ghost use Rattle.sfnt_bytes.specs.declared.directory.TheConstants.{MAX_FILE};
ghost use Rattle.font_theory.specs.Cut.{Format};
ghost use Rattle.font_theory.specs.File.{current_writing, file};
ghost use Rattle.streams.specs.Outlet.{HasSent, broken_of, fresh_of, writer_of};
ghost use Rattle.font_join.specs.JoinList.{AllRefusalIsRight, EveryTreeDiffers, IsAllJoined, IsAllRefusal, IsFirst, IsForSizeInto, IsForSizeOf, IsLeastOf, IsSentAs, JoinLaws, SendsAll, StopsJoin};
ghost use Rattle.font_join.specs.Union.{HasShortTables, content_in};
ghost use Rattle.font_theory.specs.declared.kinds.Kind.TheVariants.{Full};
ghost use Rattle.font_theory.specs.Kinds.{format_of, spelled_by};
ghost use Rattle.font_join.specs.KindInside.{IsUnitedIn, HoldsIn};
ghost use Rattle.font_join.specs.declared.join_error.JoinAllError.TheVariants.{At};
ghost use Rattle.font_join.specs.declared.join_error.JoinAllIntoError.TheVariants.{NotJoined};
ghost use Rattle.font_join.specs.declared.join_error.JoinError.TheVariants.{NoMemory as JoinNoMemory, TableTooLong};
ghost use Rattle.sfnt_bytes.specs.declared.tag.Tag.{Tag};
ghost use Rattle.font_theory.specs.Content.{Content};
ghost use Rattle.font_join.specs.Join.{IsJoin, IsJoinRefusal};
ghost use Rattle.font_join.specs.Inside.{IsFirstUnion, IsTooLargeFile};
ghost use Rattle.font_theory.specs.declared.kinds.Kind.{Kind};

use crate::join_error::{JoinAllError, JoinAllIntoError, JoinError, Which};
use crate::join_input::open_input;
use crate::union::Union;
use font_file::Font;
use font_theory::Kind;
use font_write::{CutIntoError, file_in_memory, send_whole};
use sfnt_bytes::Memory;
use std::alloc::Allocator;
use std::convert::AsSlice;
use std::io::Write;
use streams::Outlet;

// Opens the first file of a list.
fn open_first<F: AsSlice<u8>>(files: &[F]) -> Result<Font<'_>, JoinAllError>
    ensures exact { let bytes = map F.items files.now in
        MatchResult result (IsFirst bytes) (λ error. (R : Format) → IsAllRefusal R bytes error) }
    ensures memory { (step : ℕ) → result ≢ Err (At step JoinNoMemory) }
{
    if files.is_empty() {
        return Err(JoinAllError::NothingToJoin);
    }
    match open_input(Which::First, files[0].as_slice()) {
        Ok(font) => Ok(font),
        Err(error) => Err(JoinAllError::At { step: 0, error }),
    }
}

// Returns the union, or its size as an error where that is too large.
fn sized<'f, 'a, A: Allocator + Copy>(
    union: Union<'f, 'a, A>,
) -> Result<Union<'f, 'a, A>, JoinError>
    ensures { MatchResult result (λ sized. (sized ≡ union.entry)
        × (length (file current_writing (content_in union.entry)) ≤ MAX_FILE))
        (IsTooLargeFile (file current_writing (content_in union.entry))) }
{
    match union.too_large() {
        Some(size) => Err(JoinError::TooLarge(size)),
        None => Ok(union),
    }
}

// Returns the join of the files so far with the next file.
fn joined_with<'f, 'a, A: Memory + Copy>(
    alloc: A,
    all: Union<'f, 'a, A>,
    y: &'a [u8],
) -> Result<Union<'f, 'a, A>, JoinError>
    requires { HasShortTables all }
    ensures exact { (kind : Kind) (x : List ℕ) → HoldsIn kind all.entry x → MatchResult result
        (λ union. (z : List ℕ) × IsJoin (format_of kind) x y.now z × HoldsIn kind union z)
        (IsJoinRefusal (format_of kind) x y.now) }
    ensures memory { result ≡ Err JoinNoMemory → IsRefused A.refuses }
{
    let next = open_input(Which::Second, y)?;
    let union = all.add(alloc, &next)?;
    sized(union)
}

// Returns the union of all files, of which that of the first is given, or the first refusal. The first is
// joined with itself, which writes it anew.
fn union_in_turn<'f, 'a, A: Memory + Copy, F: AsSlice<u8>>(
    alloc: A,
    first: Union<'f, 'a, A>,
    files: &'a [F],
) -> Result<Union<'f, 'a, A>, JoinAllError>
    requires { IsFirstUnion (format_of first.kind) (spelled_by first.kind) (map F.items files.now)
        (content_in first) }
    ensures exact { let bytes = map F.items files.now in
        MatchResult result (IsUnitedIn first.entry.kind bytes)
        (IsAllRefusal (format_of first.entry.kind) bytes) }
    ensures memory { (step : ℕ) → result ≡ Err (At step JoinNoMemory) → IsRefused A.refuses }
{
    let mut all = match sized(first) {
        Ok(all) => all,
        Err(error) => return Err(JoinAllError::At { step: 0, error }),
    };
    for step in 1..files.len() {
        all = match joined_with(alloc, all, files[step].as_slice()) {
            Ok(next) => next,
            Err(error) => return Err(JoinAllError::At { step, error }),
        };
    }
    Ok(all)
}

// Returns the union of all files, of which that of the first is given, in a form that is quick to write.
fn union_from<'f, 'a, A: Memory + Copy, F: AsSlice<u8>>(
    alloc: A,
    first: Union<'f, 'a, A>,
    files: &'a [F],
) -> Result<Union<'f, 'a, A>, JoinAllError>
    requires { IsFirstUnion (format_of first.kind) (spelled_by first.kind) (map F.items files.now)
        (content_in first) }
    ensures exact { let bytes = map F.items files.now in
        MatchResult result (IsUnitedIn first.entry.kind bytes)
        (IsAllRefusal (format_of first.entry.kind) bytes) }
    ensures memory { (step : ℕ) → result ≡ Err (At step JoinNoMemory) → IsRefused A.refuses }
{
    let all = union_in_turn(alloc, first, files)?;
    match all.settle(alloc) {
        Ok(all) => Ok(all),
        Err(_) => Err(JoinAllError::At {
            step: files.len() - 1,
            error: JoinError::NoMemory,
        }),
    }
}

// Returns the union of all files, of which the first is open, or the first refusal.
fn union_of_all<'f, 'a, A: Memory + Copy, F: AsSlice<u8>>(
    alloc: A,
    kind: Kind,
    first: &'f Font<'a>,
    files: &'a [F],
) -> Result<Union<'f, 'a, A>, JoinAllError>
    requires { IsFirst (map F.items files.now) first.now }
    ensures exact { let bytes = map F.items files.now in
        MatchResult result (IsUnitedIn kind bytes) (IsAllRefusal (format_of kind) bytes) }
    ensures memory { (step : ℕ) → result ≡ Err (At step JoinNoMemory) → IsRefused A.refuses }
{
    match Union::of_first(alloc, kind, first) {
        Ok(one) => union_from(alloc, one, files),
        Err(error) => Err(JoinAllError::At { step: 0, error }),
    }
}

// Returns the file of the union of all files.
fn file_of_all<A: Memory + Copy, F: AsSlice<u8>>(
    alloc: A,
    all: &Union<'_, '_, A>,
    files: &[F],
) -> Result<Vec<u8, A>, JoinAllError>
    requires { 0 < length files.now }
    ensures exact { let bytes = map F.items files.now in (kind : Kind) → IsUnitedIn kind bytes all.now →
        MatchResult result (λ z. IsAllJoined (format_of kind) bytes z.items)
        (IsAllRefusal (format_of kind) bytes) }
    ensures memory { (step : ℕ) → result ≡ Err (At step JoinNoMemory) → IsRefused A.refuses }
{
    match file_in_memory(alloc, all) {
        Ok(file) => Ok(file),
        Err(error) => Err(JoinAllError::At {
            step: files.len() - 1,
            error: JoinError::from(error),
        }),
    }
}

// Returns the join of all files, or the first refusal.
fn join_in_turn<A: Memory + Copy>(
    alloc: A,
    kind: Kind,
    files: &[Vec<u8, A>],
) -> Result<Vec<u8, A>, JoinAllError>
    ensures exact { let bytes = map (λ v. v.items) files.now in
        MatchResult result (λ z. IsAllJoined (format_of kind) bytes z.items)
        (IsAllRefusal (format_of kind) bytes) }
    ensures memory { (step : ℕ) → result ≡ Err (At step JoinNoMemory) → IsRefused A.refuses }
{
    let first = open_first(files)?;
    let all = union_of_all(alloc, kind, &first, files)?;
    file_of_all(alloc, &all, files)
}

/// Returns the first of some cuts of a kind joined with itself, and then the join so far with each next one in
/// turn, as [`join_all`] does for full ones.
///
/// # Errors
///
/// Those of [`join_all`].
pub fn join_all_of_kind<A: Memory + Copy>(
    alloc: A,
    kind: Kind,
    files: &[Vec<u8, A>],
) -> Result<Vec<u8, A>, JoinAllError>
    ensures exact { let bytes = map (λ v. v.items) files.now in
        MatchResult result (λ z. IsAllJoined (format_of kind) bytes z.items)
        (IsAllRefusal (format_of kind) bytes) }
    ensures small { IfOk result (λ z. length z.items ≤ MAX_FILE) }
    ensures laws { let bytes = map (λ v. v.items) files.now in
        JoinLaws (format_of kind) bytes result (λ z v. v.items ≡ z) (IsForSizeOf (format_of kind)) }
    ensures clash { let bytes = map (λ v. v.items) files.now in
        IfErr result (EveryTreeDiffers (format_of kind) bytes) }
    ensures upper { let bytes = map (λ v. v.items) files.now in
        IfOk result (λ z. IsLeastOf (format_of kind) bytes z.items) }
    ensures refused { let bytes = map (λ v. v.items) files.now in
        IfErr result (AllRefusalIsRight (format_of kind) bytes) }
    ensures fits { ((K : Content) → (format_of kind).misfit K ≡ None) → (step : ℕ) (tag : Tag) →
        result ≢ Err (At step (TableTooLong tag)) }
    ensures memory { (step : ℕ) → result ≡ Err (At step JoinNoMemory) → IsRefused A.refuses }
{
    join_in_turn(alloc, kind, files)
}

/// Returns the first file joined with itself, and then the join so far with each next file in turn. Cuts
/// of one font give its cut for the codes of all of them, in whatever order and in whichever forms they
/// come. Each tree of joins over the same files gives the same file, written anew where it is an old
/// one. The first step writes an old file anew, so it is refused where that is too large.
///
/// # Errors
///
/// `NothingToJoin` for an empty list, and else the first step that is refused.
///
/// # Example
///
/// From the test `join_of_many` of `cut_tests`:
///
/// ```
/// let files = copies(rt.alloc(), rt.alloc(), &[&AACUTE, &A_AND_B, &AACUTE])?;
/// let joined = join_all(rt.alloc(), &files)?;
/// assert_eq!(rt; joined.as_slice(), A_B_AACUTE.as_slice());
/// ```
pub fn join_all<A: Memory + Copy>(
    alloc: A,
    files: &[Vec<u8, A>],
) -> Result<Vec<u8, A>, JoinAllError>
    ensures exact { let bytes = map (λ v. v.items) files.now in
        MatchResult result (λ z. IsAllJoined (format_of Full) bytes z.items) (IsAllRefusal (format_of Full) bytes) }
    ensures small { IfOk result (λ z. length z.items ≤ MAX_FILE) }
    ensures laws { let bytes = map (λ v. v.items) files.now in
        JoinLaws (format_of Full) bytes result (λ z v. v.items ≡ z) (IsForSizeOf (format_of Full)) }
    ensures clash { let bytes = map (λ v. v.items) files.now in
        IfErr result (EveryTreeDiffers (format_of Full) bytes) }
    ensures upper { let bytes = map (λ v. v.items) files.now in
        IfOk result (λ z. IsLeastOf (format_of Full) bytes z.items) }
    ensures refused { let bytes = map (λ v. v.items) files.now in
        IfErr result (AllRefusalIsRight (format_of Full) bytes) }
    ensures fits { (step : ℕ) (tag : Tag) → result ≢ Err (At step (TableTooLong tag)) }
    ensures memory { (step : ℕ) → result ≡ Err (At step JoinNoMemory) → IsRefused A.refuses }
{
    join_all_of_kind(alloc, Kind::Full, files)
}

/// Opens the first of a list of files, with which [`union_of_files`] begins, of any kind.
///
/// # Errors
///
/// `NothingToJoin` for an empty list, and step 0 where the first file is no font that is accepted.
pub fn open_first_file<'a>(files: &'a [&'a [u8]]) -> Result<Font<'a>, JoinAllError>
    ensures exact { let bytes = map (λ f. f.now) files.now in
        MatchResult result (IsFirst bytes) (λ error. (R : Format) → IsAllRefusal R bytes error) }
    ensures memory { (step : ℕ) → result ≢ Err (At step JoinNoMemory) }
{
    open_first(files)
}

/// Returns the union of a list of cuts of a kind, of which the first is open: what [`join_all`] makes its file
/// of, so that the join can be measured, and then sent to any sink. All memory that the join needs is
/// asked for here.
///
/// # Errors
///
/// The first step that is refused, as [`join_all`] answers it.
pub fn union_of_files<'f, 'a, A: Memory + Copy>(
    alloc: A,
    kind: Kind,
    first: &'f Font<'a>,
    files: &'a [&'a [u8]],
) -> Result<Union<'f, 'a, A>, JoinAllError>
    requires { IsFirst (map (λ f. f.now) files.now) first.now }
    ensures exact { let bytes = map (λ f. f.now) files.now in
        MatchResult result (λ union. IsAllJoined (format_of kind) bytes
        (file current_writing (content_in union)))
        (IsAllRefusal (format_of kind) bytes) }
    ensures small { IfOk result (λ union. length (file current_writing (content_in union)) ≤ MAX_FILE) }
    ensures upper { let bytes = map (λ f. f.now) files.now in
        IfOk result (λ union. IsLeastOf (format_of kind) bytes (file current_writing (content_in union))) }
    ensures refused { let bytes = map (λ f. f.now) files.now in
        IfErr result (AllRefusalIsRight (format_of kind) bytes) }
    ensures fits { ((K : Content) → (format_of kind).misfit K ≡ None) → (step : ℕ) (tag : Tag) →
        result ≢ Err (At step (TableTooLong tag)) }
    ensures memory { (step : ℕ) → result ≡ Err (At step JoinNoMemory) → IsRefused A.refuses }
{
    union_of_all(alloc, kind, first, files)
}

// Sends the file of the union of some files, of which this is the place of the last, and returns its length.
fn send_all<A: Allocator + Copy, W: Write>(
    all: &Union<'_, '_, A>,
    step: usize,
    out: &mut Outlet<W>,
) -> Result<u64, JoinAllIntoError>
    requires { fresh_of out.old ≡ true }
    ensures sends { (kind : Kind) (files : List (List ℕ)) → IsUnitedIn kind files all.now →
        IfOk result (SendsAll (format_of kind) W.contents out.old out.new files) }
    ensures unbroken { OnOk result (broken_of out.new ≡ false) }
    ensures stops { (kind : Kind) (files : List (List ℕ)) → IsUnitedIn kind files all.now →
        IfErr result (StopsJoin (format_of kind) W.contents out.old out.new files) }
    ensures memory { (step : ℕ) → result ≢ Err (NotJoined (At step JoinNoMemory)) }
{
    match send_whole(all, out) {
        Ok(size) => Ok(size),
        Err(CutIntoError::WriteFault(written)) => Err(JoinAllIntoError::WriteFault(written)),
        // A join that is too large has been refused before.
        Err(CutIntoError::TooLarge(size)) => {
            let error = JoinError::TooLarge(size);
            Err(JoinAllIntoError::NotJoined(JoinAllError::At { step, error }))
        }
        // Sending asks for no memory.
        Err(CutIntoError::NoMemory) => unreachable!(),
    }
}

// Sends the join of all files, or returns the first refusal.
fn send_in_turn<A: Memory + Copy, W: Write>(
    alloc: A,
    kind: Kind,
    files: &[Vec<u8, A>],
    out: &mut Outlet<W>,
) -> Result<u64, JoinAllIntoError>
    requires { fresh_of out.old ≡ true }
    ensures sends { let bytes = map (λ v. v.items) files.now in
        IfOk result (SendsAll (format_of kind) W.contents out.old out.new bytes) }
    ensures unbroken { OnOk result (broken_of out.new ≡ false) }
    ensures stops { let bytes = map (λ v. v.items) files.now in
        IfErr result (StopsJoin (format_of kind) W.contents out.old out.new bytes) }
    ensures memory { (step : ℕ) → result ≡ Err (NotJoined (At step JoinNoMemory)) → IsRefused A.refuses }
{
    let first = open_first(files)?;
    let all = union_of_all(alloc, kind, &first, files)?;
    send_all(&all, files.len() - 1, out)
}

/// Sends the join of a list of cuts of a kind, and returns its length, as [`join_all_into`] does for full ones.
///
/// # Errors
///
/// Those of [`join_all_into`].
pub fn join_all_of_kind_into<A: Memory + Copy, W: Write>(
    alloc: A,
    kind: Kind,
    files: &[Vec<u8, A>],
    out: &mut Outlet<W>,
) -> Result<u64, JoinAllIntoError>
    requires { fresh_of out.old ≡ true }
    ensures exact { let bytes = map (λ v. v.items) files.now in
        IfOk result (SendsAll (format_of kind) W.contents out.old out.new bytes) }
    ensures small { IfOk result (λ size. size ≤ MAX_FILE) }
    ensures sent { let bytes = map (λ v. v.items) files.now in
        IfOk result (λ size. IsSome (W.contents (writer_of out.old)) →
        (z : List ℕ) × IsAllJoined (format_of kind) bytes z × HasSent W.contents out.new z) }
    ensures unbroken { OnOk result (broken_of out.new ≡ false) }
    ensures stops { let bytes = map (λ v. v.items) files.now in
        IfErr result (StopsJoin (format_of kind) W.contents out.old out.new bytes) }

    // The laws of `join_all`, of the bytes that went out.
    ensures laws { let bytes = map (λ v. v.items) files.now in
        JoinLaws (format_of kind) bytes result (IsSentAs W.contents out.old out.new)
        (IsForSizeInto (format_of kind)) }
    ensures clash { let bytes = map (λ v. v.items) files.now in
        (error : JoinAllError) → result ≡ Err (NotJoined error)
        → EveryTreeDiffers (format_of kind) bytes error }

    // What went out is the least file of which all files are cuts, and a refusal says that there is none.
    ensures upper { let bytes = map (λ v. v.items) files.now in
        IfOk result (λ size. (z : List ℕ) × IsSentAs W.contents out.old out.new z size
        × IsLeastOf (format_of kind) bytes z) }
    ensures refused { let bytes = map (λ v. v.items) files.now in
        (error : JoinAllError) → result ≡ Err (NotJoined error)
        → AllRefusalIsRight (format_of kind) bytes error }
    ensures fits { ((K : Content) → (format_of kind).misfit K ≡ None) → (step : ℕ) (tag : Tag) →
        result ≢ Err (NotJoined (At step (TableTooLong tag))) }
    ensures memory { (step : ℕ) → result ≡ Err (NotJoined (At step JoinNoMemory)) → IsRefused A.refuses }
{
    send_in_turn(alloc, kind, files, out)
}

/// Sends the join of a list of files, and returns how many bytes it has. All memory is asked for before
/// the first write: a mark and a place for each glyph, and the groups of the union, but none for the
/// join itself. It is sent in short pieces, so a writer that costs something at each call should gather
/// them.
///
/// # Errors
///
/// `NotJoined` with the refusal of [`join_all`]: nothing was sent. `WriteFault` where a write failed:
/// the outlet is broken, and a front of the join went out.
pub fn join_all_into<A: Memory + Copy, W: Write>(
    alloc: A,
    files: &[Vec<u8, A>],
    out: &mut Outlet<W>,
) -> Result<u64, JoinAllIntoError>
    requires { fresh_of out.old ≡ true }
    ensures exact { let bytes = map (λ v. v.items) files.now in
        IfOk result (SendsAll (format_of Full) W.contents out.old out.new bytes) }
    ensures small { IfOk result (λ size. size ≤ MAX_FILE) }
    ensures sent { let bytes = map (λ v. v.items) files.now in
        IfOk result (λ size. IsSome (W.contents (writer_of out.old)) →
        (z : List ℕ) × IsAllJoined (format_of Full) bytes z × HasSent W.contents out.new z) }
    ensures unbroken { OnOk result (broken_of out.new ≡ false) }
    ensures stops { let bytes = map (λ v. v.items) files.now in
        IfErr result (StopsJoin (format_of Full) W.contents out.old out.new bytes) }

    // The laws of `join_all`, of the bytes that went out.
    ensures laws { let bytes = map (λ v. v.items) files.now in
        JoinLaws (format_of Full) bytes result (IsSentAs W.contents out.old out.new) (IsForSizeInto (format_of Full)) }
    ensures clash { let bytes = map (λ v. v.items) files.now in
        (error : JoinAllError) → result ≡ Err (NotJoined error) → EveryTreeDiffers (format_of Full) bytes error }

    // What went out is the least file of which all files are cuts, and a refusal says that there is none.
    ensures upper { let bytes = map (λ v. v.items) files.now in
        IfOk result (λ size. (z : List ℕ) × IsSentAs W.contents out.old out.new z size
        × IsLeastOf (format_of Full) bytes z) }
    ensures refused { let bytes = map (λ v. v.items) files.now in
        (error : JoinAllError) → result ≡ Err (NotJoined error)
        → AllRefusalIsRight (format_of Full) bytes error }
    ensures fits { (step : ℕ) (tag : Tag) → result ≢ Err (NotJoined (At step (TableTooLong tag))) }
    ensures memory { (step : ℕ) → result ≡ Err (NotJoined (At step JoinNoMemory)) → IsRefused A.refuses }
{
    join_all_of_kind_into(alloc, Kind::Full, files, out)
}
