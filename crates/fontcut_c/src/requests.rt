//! What is asked of a font, as callers write it, and how that is read.
ghost use Rattle.std.specs.Prelude.{◌≡◌, ◌≢◌, ◌<◌, IfErr, IfOk, length, map, true};
ghost use Rattle.std.specs.List.{list_all};
ghost use Rattle.fontcut_c.specs.Requests.{asked_at, asked_by, has_checked, has_closes, is_like, is_of_this_version, read, read_all};
ghost use Rattle.fontcut_c.specs.KindNumbers.{takes_glyphs as takes};

use crate::answer::Answer;
use crate::kind::{kind_of_number, takes_glyphs};
use codes::CodeRange;
use font_theory::Kind;

/// The size of a request in bytes, which callers write into it.
const REQUEST_SIZE: usize = 48;

/// What is asked of a font.
#[repr(C)]
#[derive(Clone, Copy, Drop)]
pub struct Request<'a> {
    /// The size of this struct in bytes, so that a later version can have more fields.
    pub struct_size: usize,
    /// The number of the kind of cuts.
    pub kind: u32,
    /// The sum of flags: 1 where layout and variable cuts have all that links of `GSUB` lead to, and 2 where the font was
    /// accepted before, and is not tested again.
    pub flags: u32,
    /// The ranges of the wanted codes.
    pub ranges: &'a [CodeRange],
    /// The wanted glyphs, by number.
    pub glyphs: &'a [u16],
}

/// Returns whether a sum of flags has that of a font that was accepted before.
pub(crate) fn is_checked(flags: u32) -> bool
    ensures { result ≡ has_checked flags }
{
    flags == 2 || flags == 3
}

// Tells whether a request has the size and no flags but those of this version.
fn is_known(request: &Request<'_>) -> bool
    ensures { result ≡ is_of_this_version (asked_by request.now) }
{
    request.struct_size == REQUEST_SIZE && request.flags < 4
}

// Tells whether a request differs from another in its ranges and glyphs alone.
fn is_alike(first: &Request<'_>, request: &Request<'_>) -> bool
    ensures { result ≡ is_like (asked_by first.now) (asked_by request.now) }
{
    request.struct_size == first.struct_size
        && request.kind == first.kind
        && request.flags == first.flags
}

// Tells whether all requests differ from another in their ranges and glyphs alone.
fn are_alike(first: &Request<'_>, requests: &[Request<'_>]) -> bool
    ensures { result ≡ list_all (is_like (asked_by first.now)) (map asked_by requests.now) }
{
    for index in 0..requests.len() {
        if !is_alike(first, &requests[index]) {
            return false;
        }
    }
    true
}

// Tells whether cuts of a kind can be asked for the glyphs of each request.
fn are_taken(kind: Kind, requests: &[Request<'_>]) -> bool
    ensures { result ≡ list_all (λ a. takes kind a.glyphs) (map asked_by requests.now) }
{
    for index in 0..requests.len() {
        if !takes_glyphs(kind, requests[index].glyphs) {
            return false;
        }
    }
    true
}

impl<'a> Request<'a> {
    /// Returns whether layout and variable cuts have all that links of `GSUB` lead to.
    pub(crate) fn closes(&self) -> bool
        ensures { result ≡ has_closes (asked_by self.now).flags }
    {
        self.flags == 1 || self.flags == 3
    }

    /// Returns the ranges. For none a caller may write NULL, which no slice of Rattle's is.
    pub(crate) fn wanted_ranges(&self) -> &'a [CodeRange]
        ensures { result.now ≡ (asked_by self.now).ranges }
    {
        if self.ranges.is_empty() {
            &[]
        } else {
            self.ranges
        }
    }

    /// Returns the glyphs. For none a caller may write NULL, which no slice of Rattle's is.
    pub(crate) fn wanted_glyphs(&self) -> &'a [u16]
        ensures { result.now ≡ (asked_by self.now).glyphs }
    {
        if self.glyphs.is_empty() {
            &[]
        } else {
            self.glyphs
        }
    }

    /// Returns the kind of cuts that is asked for, or what is answered where the request is not of this version, its
    /// number is no kind's, or glyphs are asked for by number of full cuts.
    #[tactic(auto, unfolding(crate::specs::Requests::read))]
    pub(crate) fn read(&self) -> Result<Kind, Answer>
        ensures exact { result ≡ read (asked_by self.now) }
        ensures refused { IfErr result (λ answer. answer.status ≢ 0) }
    {
        if !is_known(self) {
            return Err(Answer::unknown_request());
        }
        match kind_of_number(self.kind) {
            Some(kind) if takes_glyphs(kind, self.glyphs) => Ok(kind),
            Some(_) => Err(Answer::no_numbers()),
            None => Err(Answer::unknown_kind(self.kind)),
        }
    }
}

/// Returns the kind of cuts that requests ask for, which are alike and as many as there are places, or what is answered
/// where there is none.
#[tactic(auto, unfolding(crate::specs::Requests::read_all))]
pub(crate) fn read_requests(requests: &[Request<'_>], places: usize) -> Result<Kind, Answer>
    ensures exact { result ≡ read_all (map asked_by requests.now) places }
    ensures alike { let all = map asked_by requests.now in
        IfOk result (λ _. list_all (is_like (asked_at all 0)) all ≡ true) }
    ensures some { IfOk result (λ _. 0 < length requests.now) }
    ensures places { IfOk result (λ _. places ≡ length requests.now) }
    ensures refused { IfErr result (λ answer. answer.status ≢ 0) }
{
    if requests.is_empty() || places != requests.len() || !are_alike(&requests[0], requests) {
        return Err(Answer::bad_requests());
    }
    let kind = requests[0].read()?;
    if are_taken(kind, requests) {
        Ok(kind)
    } else {
        Err(Answer::no_numbers())
    }
}
