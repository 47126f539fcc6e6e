//! The program: its words, its standard output and its standard error.
#![tactic(auto)]

ghost use Rattle.std.specs.Prelude.{◌≡◌, true};
ghost use Rattle.streams.specs.Outlet.{fresh_of};

use font_cmd::{KeepsReason, Reason, System, run_on_system};
use program_files::{fill_standard, unreadable_argument, words_of_line};
use std::alloc::{AllocError, Global};
use std::io::{ErrorKind, Write};
use std::process::ExitCode;
use streams::Outlet;

// What is said where an argument is not UTF-8.
const UNREADABLE: &str = "fontcut: a word of the line is not UTF-8\n";

// Returns the lines that say that an argument is not UTF-8, and which one it is.
fn unreadable_text(alloc: Global, number: usize) -> Result<String, AllocError> {
    let first = UNREADABLE;
    format!(in alloc; "{first}fontcut: argument {number} is not UTF-8\n")
}

// Says that an argument is not UTF-8, and which one it is where that is wanted.
fn say_unreadable<W: Write>(alloc: Global, err: &mut Outlet<W>, argument: Option<usize>)
    requires { fresh_of err.old ≡ true }
{
    let text = match argument {
        Some(number) => unreadable_text(alloc, number).ok(),
        None => None,
    };
    let said = match &text {
        Some(text) => text.as_str(),
        None => UNREADABLE,
    };
    let _ = err.put(said.as_bytes());
}

fn main(rt: HostRuntime) -> ExitCode {
    fill_standard(&rt);
    let alloc = rt.alloc();
    let reason = Reason::new();
    let mut out = Outlet::new(KeepsReason::new(rt.stdout(), &reason));
    let mut err = Outlet::new(rt.stderr());
    let system = System {
        files: &rt,
        alloc,
        input: rt.stdin(),
        output: rt.stdout(),
        reason: &reason,
    };
    match words_of_line(&rt, alloc) {
        Ok(words) => ExitCode::from(run_on_system(&system, words.as_slice(), &mut out, &mut err)),
        Err(fault) if fault.kind() == ErrorKind::OutOfMemory => {
            let _ = err.put(b"fontcut: refused 16 no memory\n");
            ExitCode::from(1)
        }
        Err(_) => {
            say_unreadable(alloc, &mut err, unreadable_argument(&rt, alloc));
            ExitCode::from(2)
        }
    }
}
