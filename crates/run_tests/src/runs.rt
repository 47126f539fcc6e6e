//! The runs, each over one reader and one writer of the test's, and what they are to send.
use commands::{
    RunError, run_belongs, run_check, run_codes, run_glyphs, run_join_of_kind, run_show,
    run_subset_of_kind,
};
use fakes::Refusing;
use fakes::devices::{Failure, Narrow, Pieces};
use font_cut::{BASE6, Kind, Outlet, Wanted};
use sample_fonts::fonts::BASE6_SHOWN;
use sample_fonts::known_cuts::{
    A_AND_B, A_B_AACUTE, AACUTE, LEAN_A_AND_B, LEAN_A_B_AACUTE, LEAN_AACUTE,
};
use std::alloc::Global;
use streams::Inlet;

const CHECKED: &[u8] = b"findings 0\naccepted\n";

const CODES: &[u8] = b"U+20\nU+41-42\nU+C1\n";

const GLYPHS: &[u8] = b"U+20 4 250\nU+41 1 500\nU+42 5 300\nU+C1 3 500\n";

/// A run, and of one over more inlets than one which of them has the reader of the test's.
#[derive(Clone, Copy, Debug, PartialEq, Eq)]
pub enum Command {
    Check,
    Show,
    Codes,
    Glyphs,
    Subset,
    LeanSubset,
    BelongsFirst,
    BelongsSecond,
    JoinFirst,
    JoinSecond,
    LeanJoinFirst,
    LeanJoinSecond,
}

/// All runs.
pub const RUNS: [Command; 12] = [
    Command::Check,
    Command::Show,
    Command::Codes,
    Command::Glyphs,
    Command::Subset,
    Command::LeanSubset,
    Command::BelongsFirst,
    Command::BelongsSecond,
    Command::JoinFirst,
    Command::JoinSecond,
    Command::LeanJoinFirst,
    Command::LeanJoinSecond,
];

/// How an inlet is after a run.
#[derive(Clone, Copy, Debug, PartialEq, Eq)]
pub enum State {
    Fresh,
    Read,
    Broken,
}

impl Command {
    /// Returns what the test's reader gives.
    pub fn file(self) -> &'static [u8] {
        match self {
            Command::Check
            | Command::Show
            | Command::Codes
            | Command::Glyphs
            | Command::Subset
            | Command::LeanSubset
            | Command::BelongsSecond => &BASE6,
            Command::BelongsFirst | Command::JoinFirst | Command::JoinSecond => &AACUTE,
            Command::LeanJoinFirst | Command::LeanJoinSecond => &LEAN_AACUTE,
        }
    }

    /// Returns whether the run sends a font, which goes out in many calls. A report is sent by one.
    pub fn sends_font(self) -> bool {
        matches!(
            self,
            Command::Subset
                | Command::LeanSubset
                | Command::JoinFirst
                | Command::JoinSecond
                | Command::LeanJoinFirst
                | Command::LeanJoinSecond
        )
    }

    /// Returns the kind of what is cut or joined.
    pub fn kind(self) -> Kind {
        match self {
            Command::LeanSubset | Command::LeanJoinFirst | Command::LeanJoinSecond => Kind::Lean,
            _ => Kind::Full,
        }
    }

    /// Returns what is to be sent.
    pub fn text(self) -> &'static [u8] {
        match self {
            Command::Check => CHECKED,
            Command::Show => BASE6_SHOWN,
            Command::Codes => CODES,
            Command::Glyphs => GLYPHS,
            Command::Subset => &AACUTE,
            Command::LeanSubset => &LEAN_AACUTE,
            Command::BelongsFirst | Command::BelongsSecond => b"yes\n",
            Command::JoinFirst | Command::JoinSecond => &A_B_AACUTE,
            Command::LeanJoinFirst | Command::LeanJoinSecond => &LEAN_A_B_AACUTE,
        }
    }

    /// Returns what is to be answered: of `check` 1 for an accepted font, of `belongs` 1 for a cut of
    /// the font, and of `show`, `codes` and `codes --glyphs` nothing.
    pub fn answer(self) -> u64 {
        match self {
            Command::Check | Command::BelongsFirst | Command::BelongsSecond => 1,
            Command::Show | Command::Codes | Command::Glyphs => 0,
            Command::Subset | Command::LeanSubset => self.text().len() as u64,
            Command::JoinFirst
            | Command::JoinSecond
            | Command::LeanJoinFirst
            | Command::LeanJoinSecond => self.text().len() as u64,
        }
    }

    /// How the inlets are once all were read.
    pub fn read(self) -> [State; 3] {
        match self {
            Command::BelongsFirst | Command::BelongsSecond => [
                State::Read,
                State::Read,
                State::Fresh,
            ],
            Command::JoinFirst
            | Command::JoinSecond
            | Command::LeanJoinFirst
            | Command::LeanJoinSecond => [State::Read; 3],
            _ => [State::Read, State::Fresh, State::Fresh],
        }
    }

    /// How the inlets are where the test's reader fails: those after it are not read.
    pub fn stopped(self) -> [State; 3] {
        match self {
            Command::BelongsSecond | Command::JoinSecond | Command::LeanJoinSecond => [
                State::Read,
                State::Broken,
                State::Fresh,
            ],
            _ => [State::Broken, State::Fresh, State::Fresh],
        }
    }
}

/// How a run ended.
#[derive(Drop)]
pub struct Outcome {
    /// What was answered, in numbers as of `Command::answer`.
    pub answer: Result<u64, RunError>,
    /// How the inlets are. Where there is one, the others count as fresh.
    pub inlets: [State; 3],
    pub is_fresh: bool,
    pub is_broken: bool,
    pub is_flushed: bool,
    pub written: u64,
    pub writer: Narrow,
}

fn state_of(inlet: &Inlet<Pieces<'_>>) -> State {
    if inlet.is_broken() {
        State::Broken
    } else if inlet.is_fresh() {
        State::Fresh
    } else {
        State::Read
    }
}

fn outcome_of(
    answer: Result<u64, RunError>,
    inlets: [State; 3],
    outlet: Outlet<Narrow>,
) -> Outcome {
    Outcome {
        answer,
        inlets,
        is_fresh: outlet.is_fresh(),
        is_broken: outlet.is_broken(),
        is_flushed: outlet.is_flushed(),
        written: outlet.written(),
        writer: outlet.into_inner(),
    }
}

// Runs over one inlet. Where the set of wanted codes gets no memory, that is the answer.
fn run_alone(
    memory: &Refusing<Global>,
    run: Command,
    reader: Pieces<'_>,
    writer: Narrow,
) -> Outcome {
    let mut inlet = Inlet::new(reader);
    let mut outlet = Outlet::new(writer);
    let answer = match run {
        Command::Check => run_check(memory, &mut inlet, &mut outlet).map(u64::from),
        Command::Show => run_show(memory, &mut inlet, &mut outlet).map(|_| 0),
        Command::Codes => run_codes(memory, &mut inlet, &mut outlet).map(|_| 0),
        Command::Glyphs => run_glyphs(memory, &mut inlet, &mut outlet).map(|_| 0),
        _ => {
            let mut wanted = Wanted::new(memory);
            match wanted.add(0xC1, 0xC1) {
                Ok(()) => run_subset_of_kind(memory, run.kind(), &mut inlet, &wanted, &mut outlet),
                Err(_) => Err(RunError::Memory),
            }
        }
    };
    let inlets = [state_of(&inlet), State::Fresh, State::Fresh];
    outcome_of(answer, inlets, outlet)
}

// Runs a join, of whose three inlets the second one is the test's where `is_second`, and else the first.
fn run_joined(
    memory: &Refusing<Global>,
    kind: Kind,
    is_second: bool,
    reader: Pieces<'_>,
    writer: Narrow,
) -> Outcome {
    let file: &[u8] = if kind == Kind::Lean {
        &LEAN_A_AND_B
    } else {
        &A_AND_B
    };
    let other = Pieces::new(file, 4096, Failure::Nowhere);
    let last = Inlet::new(Pieces::new(file, 4096, Failure::Nowhere));
    let mut outlet = Outlet::new(writer);
    let mut inlets = if is_second {
        [Inlet::new(other), Inlet::new(reader), last]
    } else {
        [Inlet::new(reader), Inlet::new(other), last]
    };
    let answer = run_join_of_kind(memory, kind, &mut inlets, &mut outlet);
    let states = [
        state_of(&inlets[0]),
        state_of(&inlets[1]),
        state_of(&inlets[2]),
    ];
    outcome_of(answer, states, outlet)
}

// Runs `belongs`, of whose two inlets the second one is the test's where `is_second`, and else the
// first.
fn run_compared(
    memory: &Refusing<Global>,
    is_second: bool,
    reader: Pieces<'_>,
    writer: Narrow,
) -> Outcome {
    let mut outlet = Outlet::new(writer);
    let (mut cut, mut font) = if is_second {
        let other = Pieces::new(&AACUTE, 4096, Failure::Nowhere);
        (Inlet::new(other), Inlet::new(reader))
    } else {
        let other = Pieces::new(&BASE6, 4096, Failure::Nowhere);
        (Inlet::new(reader), Inlet::new(other))
    };
    let answer = run_belongs(memory, Kind::Full, &mut cut, &mut font, &mut outlet);
    outcome_of(
        answer.map(u64::from),
        [state_of(&cut), state_of(&font), State::Fresh],
        outlet,
    )
}

/// Makes a run. The other readers of a join and of `belongs` give their files at once.
pub fn made(
    memory: &Refusing<Global>,
    run: Command,
    reader: Pieces<'_>,
    writer: Narrow,
) -> Outcome {
    match run {
        Command::BelongsFirst => run_compared(memory, false, reader, writer),
        Command::BelongsSecond => run_compared(memory, true, reader, writer),
        Command::JoinFirst | Command::LeanJoinFirst => {
            run_joined(memory, run.kind(), false, reader, writer)
        }
        Command::JoinSecond | Command::LeanJoinSecond => {
            run_joined(memory, run.kind(), true, reader, writer)
        }
        _ => run_alone(memory, run, reader, writer),
    }
}

/// Makes a run whose reader gives and whose writer takes at most `piece` bytes a call; one of the two
/// may fail.
pub fn failing(alloc: Global, run: Command, piece: usize, failure: Failure) -> Outcome {
    let memory = Refusing::new(alloc, 0);
    let reader = Pieces::new(run.file(), piece, failure);
    made(&memory, run, reader, Narrow::new(alloc, piece, failure))
}

/// Returns whether a run has sent all that it is to send, and read all inlets.
pub fn is_done(run: Command, ended: &Outcome) -> bool {
    ended.answer == Ok(run.answer())
        && ended.inlets == run.read()
        && !ended.is_broken
        && ended.is_flushed
        && ended.writer.held() == run.text()
        && ended.written == run.text().len() as u64
}
