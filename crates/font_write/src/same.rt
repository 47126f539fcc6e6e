//! A sink that compares with a file, so that nothing is built only to be compared.
ghost use Rattle.std.specs.Prelude.{◌≡◌, ◌≢◌, ◌≤◌, ◌<◌, length, take, slice_index, false, true, [], None, IsTrue, ◌↔◌};
ghost use Rattle.sfnt_bytes.specs.declared.directory.TheConstants.{MAX_FILE};
ghost use Rattle.font_write.specs.Comparing.{IsOdd};
ghost use Rattle.font_write.specs.Plan.{IsPlan, planned_file};

use crate::plan::Plan;
use crate::sink::{Sink, Stopped};
use crate::source::Source;
use crate::writer::send_file;
use std::marker::Model;

/// Takes what equals a file, and stops at the first byte that differs or lies past its end.
#[derive(Drop)]
pub struct Same<'a> {
    file: &'a [u8],
    at: usize,
    odd: Option<u8>,
    stopped: bool,
}

impl<'a> Model for Same<'a> {
    ghost use Rattle.std.specs.Prelude.{◌≡◌, ◌≤◌, true, take, length};
    ghost use Rattle.font_write.specs.Comparing.{Comparing, IsOdd};

    ghost Value = { Comparing };

    ghost view = { λ s. record {
      file = s.file.now;
      taken = take s.at s.file.now;
      odd = s.odd;
      stopped = s.stopped;
    } };

    ghost invariant = { λ s. (s.at ≤ length s.file.now) × (s.stopped ≡ true →
        IsOdd s.file.now (take s.at s.file.now) s.odd) };
}

// Returns how many bytes two slices begin with alike.
fn common(a: &[u8], b: &[u8]) -> usize
    ensures a { result ≤ length a.now }
    ensures b { result ≤ length b.now }
    ensures same { take result a.now ≡ take result b.now }
    ensures differs { result < length a.now → result < length b.now →
        slice_index a.now result ≢ slice_index b.now result }
{
    let n = a.len().min(b.len());
    if a[..n] == b[..n] {
        return n;
    }
    for i in 0..n {
        if a[i] != b[i] {
            return i;
        }
    }
    n
}

impl<'a> Same<'a> {
    /// Returns a comparison with a file, of which nothing is compared yet.
    pub fn new(file: &'a [u8]) -> Same<'a>
        ensures { result ≡ record { file = file.entry.now; taken = []; odd = None; stopped = false } }
    {
        Same {
            file,
            at: 0,
            odd: None,
            stopped: false,
        }
    }

    /// Returns whether all of the file was taken.
    pub fn is_whole(&self) -> bool
        ensures { IsTrue result ↔ self.now.taken ≡ self.now.file }
    {
        self.at == self.file.len()
    }

    // Recalls that the bytes offered so far are not a prefix of the file. Does nothing at run time.
    fn recall_odd(&self)
        ensures { self.now.stopped ≡ true → IsOdd self.now.file self.now.taken self.now.odd }
    {
        let _ = &self.at;
    }
}

impl<'a> Sink for Same<'a> {
    ghost use Rattle.font_write.specs.Comparing.{trace_of};

    ghost trace = { trace_of };

    fn take(&mut self, bytes: &[u8]) -> Result<(), Stopped> {
        let n = common(&self.file[self.at..], bytes);
        self.at += n;
        if n < bytes.len() {
            self.odd = Some(bytes[n]);
            self.stopped = true;
            return Err(Stopped);
        }
        Ok(())
    }
}

/// Returns whether a file is that of a source.
pub fn is_file_of<S: Source>(source: &S, plan: &Plan, file_bytes: &[u8]) -> bool
    requires plan { IsPlan (S.content_of source.now) plan.now }
    requires small { length (planned_file plan.now (S.content_of source.now)) ≤ MAX_FILE }
    ensures { IsTrue result ↔ file_bytes.now ≡ planned_file plan.now (S.content_of source.now) }
{
    let mut same = Same::new(file_bytes);
    if send_file(source, plan, &mut same).is_err() {
        same.recall_odd();
        return false;
    }
    same.is_whole()
}
