// How a call of the program ends.

ghost use Rattle.std.specs.Prelude.{◌≡◌};
ghost use Rattle.ps_bench_frame.specs.Ending.{exit_number, input_at, input_stop_at, input_stop_status, stop_at};
ghost use Rattle.ps_bench_frame.specs.Ending.{stop_status};

use ps_base::{Memory, Refusal};
use ps_bench_cases::CaseRefusal;
use ps_bench_logs::LogRefusal;
use ps_bench_rules::RulesRefusal;
use ps_bench_trials::SumRefusal;
use ps_outside::{Failed, Stopped};

/// How a call of the program ended.
#[derive(Clone, Copy)]
pub enum Status {
    /// All was done; of `test`, every case passed, of `never` every rule holds, and of `same` no output differs.
    Done,
    /// An application is refused, by a rule L, P, B, N or S; of `same`, or both have not the same inputs and outputs.
    Refused,
    /// The words are not taken.
    Usage,
    /// A case file, a trace, a fault file, a rules file, a log or a file of counts is refused, by a rule K, T, F, R, V or
    /// U.
    BadInput,
    /// A case failed, and all were run; of `never`, a rule fails or stays open, and of `same`, an output differs or it
    /// stays open.
    Failed,
    /// A file could not be read.
    ReadFault,
    /// The output could not be written.
    WriteFault,
    /// Out of memory.
    Memory,
}

/// The number with which the program exits: 0 to 7, in the order of `Status`.
pub fn exit_code(status: Status) -> u8
    ensures { result ≡ exit_number status }
{
    match status {
        Status::Done => 0,
        Status::Refused => 1,
        Status::Usage => 2,
        Status::BadInput => 3,
        Status::Failed => 4,
        Status::ReadFault => 5,
        Status::WriteFault => 6,
        Status::Memory => 7,
    }
}

/// What a run or a search is made of beside the application.
#[derive(Clone, Copy, PartialEq)]
pub enum Input {
    /// A trace.
    Trace,
    /// The trace at this place of the words, counted from 0, of a call that names several.
    TraceAt(usize),
    /// A fault file.
    Faults,
    /// A rules file.
    Rules,
    /// A recorded log.
    Log,
    /// The application with which another one is compared.
    Other,
}

impl Input {
    // The same where a trace is the one at a place of the words.
    fn at_place(self, place: usize) -> Input
        ensures { result ≡ input_at place self }
    {
        match self {
            Input::Trace | Input::TraceAt(_) => Input::TraceAt(place),
            Input::Faults => Input::Faults,
            Input::Rules => Input::Rules,
            Input::Log => Input::Log,
            Input::Other => Input::Other,
        }
    }
}

/// Why a call stops at what a run or a search is made of.
#[derive(Clone, Copy)]
pub enum InputStop {
    /// A rule T refuses the trace, or a rule F the fault file.
    Refused(Input, Refusal),
    /// A rule R refuses the rules file.
    RulesRefused(RulesRefusal),
    /// A rule V refuses the log.
    LogRefused(LogRefusal),
    /// A rule U refuses a file of counts.
    SumRefused(SumRefusal),
    /// A rule refuses the application with which another one is compared.
    OtherRefused(Refusal),
    /// The applications that are compared have not the same inputs and outputs, which is told.
    Unlike,
    /// It cannot be read.
    Unread(Input),
}

impl InputStop {
    /// The status of a call that stops so.
    fn status(self) -> Status
        ensures { result ≡ input_stop_status self }
    {
        match self {
            InputStop::Refused(..)
            | InputStop::RulesRefused(_)
            | InputStop::LogRefused(_)
            | InputStop::SumRefused(_) => Status::BadInput,
            InputStop::OtherRefused(_) | InputStop::Unlike => Status::Refused,
            InputStop::Unread(_) => Status::ReadFault,
        }
    }

    // The same where a trace is the one at a place of the words.
    fn at_place(self, place: usize) -> InputStop
        ensures { result ≡ input_stop_at place self }
    {
        match self {
            InputStop::Refused(input, refusal) => InputStop::Refused(
                input.at_place(place),
                refusal,
            ),
            InputStop::RulesRefused(refusal) => InputStop::RulesRefused(refusal),
            InputStop::LogRefused(refusal) => InputStop::LogRefused(refusal),
            InputStop::SumRefused(refusal) => InputStop::SumRefused(refusal),
            InputStop::OtherRefused(refusal) => InputStop::OtherRefused(refusal),
            InputStop::Unlike => InputStop::Unlike,
            InputStop::Unread(input) => InputStop::Unread(input.at_place(place)),
        }
    }
}

/// Why a call stops before all is done.
#[derive(Clone, Copy)]
pub enum Stop {
    /// A rule refuses the application.
    App(Refusal),
    /// A rule refuses the case file at this place of the words, counted from 0.
    Cases(usize, CaseRefusal),
    /// The application cannot be read.
    UnreadApp,
    /// The case file at this place of the words cannot be read.
    UnreadCases(usize),
    /// What a run is made of stops it.
    Input(InputStop),
    /// A write failed.
    Unwritten,
    /// Out of memory.
    NoMemory,
}

impl Stop {
    /// The status of a call that stops so.
    pub fn status(self) -> Status
        ensures { result ≡ stop_status self }
    {
        match self {
            Stop::App(_) => Status::Refused,
            Stop::Cases(..) => Status::BadInput,
            Stop::Input(why) => why.status(),
            Stop::UnreadApp | Stop::UnreadCases(_) => Status::ReadFault,
            Stop::Unwritten => Status::WriteFault,
            Stop::NoMemory => Status::Memory,
        }
    }

    /// The same of a call that names several traces, where it stops at the one at this place of the words, counted
    /// from 0: a case file or a trace is that one.
    pub fn at_place(self, place: usize) -> Stop
        ensures { result ≡ stop_at place self }
    {
        match self {
            Stop::Cases(_, refusal) => Stop::Cases(place, refusal),
            Stop::UnreadCases(_) => Stop::UnreadCases(place),
            Stop::Input(why) => Stop::Input(why.at_place(place)),
            Stop::App(refusal) => Stop::App(refusal),
            Stop::UnreadApp => Stop::UnreadApp,
            Stop::Unwritten => Stop::Unwritten,
            Stop::NoMemory => Stop::NoMemory,
        }
    }
}

impl From<Memory> for Stop {
    ghost use Rattle.std.specs.Prelude.{◌≡◌};
    ghost use Rattle.ps_bench_frame.specs.declared.ending.Stop.TheVariants.{NoMemory as IsNoMemory};

    ghost from_gives = { λ _ stop. stop ≡ IsNoMemory };

    fn from(_memory: Memory) -> Stop {
        Stop::NoMemory
    }
}

impl From<Stopped> for Stop {
    ghost use Rattle.std.specs.Prelude.{◌≡◌};
    ghost use Rattle.ps_bench_frame.specs.declared.ending.Stop.TheVariants.{Unwritten as IsUnwritten};

    ghost from_gives = { λ _ stop. stop ≡ IsUnwritten };

    fn from(_stopped: Stopped) -> Stop {
        Stop::Unwritten
    }
}

impl From<Failed> for Stop {
    ghost use Rattle.std.specs.Prelude.{◌≡◌};
    ghost use Rattle.ps_bench_frame.specs.declared.ending.Stop.TheVariants.{Unwritten as IsUnwritten};

    ghost from_gives = { λ _ stop. stop ≡ IsUnwritten };

    fn from(_failed: Failed) -> Stop {
        Stop::Unwritten
    }
}
