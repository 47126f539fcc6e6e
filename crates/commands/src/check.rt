//! `check`: the findings of a file, and whether it is accepted.
ghost use Rattle.std.specs.Prelude.{◌≡◌, ◌↔◌, Err, None, Some, IfOk, IsTrue, OnErr, OnOk, [], false, true};
ghost use Rattle.std.specs.List.{flat_map};
ghost use Rattle.sfnt_bytes.specs.Findings.{findings_of};
ghost use Rattle.sfnt_bytes.specs.Memory.{IsRefused};
ghost use Rattle.font_file.specs.Font.{font_fault};
ghost use Rattle.commands.specs.Check.{check_text, finding_line, read_findings, report_text, shown_findings};
ghost use Rattle.streams.specs.Inlet.{inlet_fresh_of};
ghost use Rattle.streams.specs.Outlet.{IsFlushed, fresh_of};
ghost use Rattle.commands.specs.Run.{AnyFile, RefusesNone, SendsText, got};

use crate::run_error::{RunError, send};
use crate::text_memory::TextMemory;
use font_file::{Font, FontError};
use sfnt_bytes::{Directory, Finding, Memory, NoMemory};
use std::alloc::Allocator;
use std::fmt;
use std::io::Read;
use streams::{Flushes, Inlet, Outlet};

// A line for each finding.
#[derive(Clone, Copy)]
struct Lines<'a>(&'a [Finding]);

impl<'a> fmt::Display for Lines<'a> {
    ghost output = { λ lines. Some (flat_map finding_line lines.0.now) };

    fn fmt<W: fmt::Write>(&self, f: &mut fmt::Formatter<W>) -> fmt::Result {
        for finding in self.0 {
            write!(f, "{finding}\n")?;
        }
        Ok(())
    }
}

// Lists the findings of a file.
fn listed_findings<A: Memory>(
    alloc: A,
    directory: &Directory<'_>,
) -> Result<Vec<Finding, A>, NoMemory>
    ensures findings { IfOk result (λ listed. listed.items ≡ findings_of directory.now) }
    ensures memory { OnErr result (IsRefused A.refuses) }
{
    let mut listed = Vec::new(alloc);
    for finding in directory.findings() {
        A::push(&mut listed, finding)?;
    }
    Ok(listed)
}

// What `check` says of a file.
#[derive(Drop)]
struct Report<A: Allocator> {
    // The findings, where the directory is not refused.
    findings: Option<Vec<Finding, A>>,
    // The first refusal that applies.
    fault: Option<FontError>,
}

impl<A: Memory> Report<A> {
    // It stands apart, for its search for findings has 120 KB on the stack, which no other run is to touch.
    #[inline(never)]
    fn of(alloc: A, file: &[u8]) -> Result<Report<A>, NoMemory>
        ensures findings { IfOk result (λ report. shown_findings report ≡ read_findings file.now) }
        ensures fault { IfOk result (λ report. report.fault ≡ font_fault file.now) }
        ensures memory { OnErr result (IsRefused A.refuses) }
    {
        let findings = match Directory::read(file) {
            Ok(directory) => Some(listed_findings(alloc, &directory)?),
            Err(_) => None,
        };
        Ok(Report {
            findings,
            fault: Font::open(file).err(),
        })
    }
}

impl<A: Allocator> Report<A> {
    // Returns whether the file is accepted without a finding.
    fn is_clean(&self) -> bool
        ensures { IsTrue result ↔ (self.now.fault ≡ None) × (shown_findings self.now ≡ Some []) }
    {
        match (&self.findings, &self.fault) {
            (Some(findings), None) => findings.is_empty(),
            _ => false,
        }
    }
}

impl<A: Allocator> fmt::Display for Report<A> {
    ghost output = { λ report. Some (report_text (shown_findings report) report.fault) };

    fn fmt<W: fmt::Write>(&self, f: &mut fmt::Formatter<W>) -> fmt::Result {
        if let Some(findings) = &self.findings {
            let (lines, count) = (Lines(findings), findings.len());
            write!(f, "{lines}findings {count}\n")?;
        }
        match self.fault {
            None => f.write_str("accepted\n"),
            Some(fault) => {
                let number = fault.number();
                write!(f, "refused {number} {fault}\n")
            }
        }
    }
}

/// Reads a file to its end, and sends a line for each finding, their count, and whether the file is
/// accepted or why it is refused; of a file whose directory is refused the last line alone. Returns
/// whether the file is accepted and has no finding.
///
/// # Errors
///
/// `Read` where the reader fails, `Memory` if out of memory: then nothing was sent. `Write` where
/// the writer fails.
#[tactic(auto, using(crate::proofs::CheckLemmas::read_findings_accepted), unfolding(crate::specs::Check::check_text))]
pub fn run_check<R: Read, W: Flushes, A: TextMemory + Copy>(
    alloc: A,
    inlet: &mut Inlet<R>,
    outlet: &mut Outlet<W>,
) -> Result<bool, RunError>
    requires inlet { inlet_fresh_of inlet.old ≡ true }
    requires outlet { fresh_of outlet.old ≡ true }
    // `check` reports a refused file on the outlet; it is not an error of the run.
    ensures sent { SendsText R.remaining W.contents AnyFile check_text RefusesNone
        inlet.old inlet.new outlet.old outlet.new result }
    ensures flushed { OnOk result (IsFlushed W.held outlet.new) }
    ensures answer { IfOk result (λ clean. got R.remaining inlet.old
        (λ file. IsTrue clean ↔ (font_fault file ≡ None) × (findings_of file ≡ []))) }
    ensures memory { result ≡ Err RunError.Memory → IsRefused A.refuses }
{
    let file = inlet.read_all(alloc)?;
    let report = Report::of(alloc, &file)?;
    let text = alloc.text_of(&report)?;
    send(outlet, text.as_bytes())?;
    Ok(report.is_clean())
}
