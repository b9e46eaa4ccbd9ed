// What a case file says.

use crate::lists::{Cases, Checks, Statements};
use ps_base::Label;
use ps_bench_names::{Name, Settings, Values};
use ps_model::Fault;

/// The scans that a statement makes: scan k, counted from 1, is `k * step` ms after `from`, but none is later than
/// `upto`.
#[derive(Clone, Copy)]
pub struct Pace {
    /// The time in ms of the scan before, within the case; 0 where there is none.
    pub from: u32,
    /// From scan to scan, in ms.
    pub step: u32,
    /// The time in ms of the last of them, within the case.
    pub upto: u32,
    /// How many scans there are.
    pub count: u32,
}

/// How long an expectation is looked at, from the scan before it on.
#[derive(Clone, Copy)]
pub enum Window {
    /// In that scan.
    Now,
    /// In that scan or in a later one at most so many ms after it.
    Within(u32),
    /// In that scan and in each later one at most so many ms after it.
    For(u32),
}

/// What is to hold in a scan. A value is a number: of a signal or a pin 0 for FALSE and 1 for TRUE, of an instance its
/// DiagCode.
#[derive(Drop)]
pub enum Check {
    /// The scan tripped or is down.
    Trip,
    /// The scan neither tripped nor is down.
    NoTrip,
    /// The value is one of these.
    Among {
        /// Whose value.
        name: Name,
        /// The values, of which there is one at least.
        values: Values,
    },
    /// The value is another one.
    Not {
        /// Whose value.
        name: Name,
        /// The value that it is not.
        value: u16,
    },
}

/// What a line expects: all of its checks, in the window of a scan.
#[derive(Drop)]
pub struct Expectation {
    /// The scan before the line, by its number in the case, counted from 1.
    pub scan: u32,
    /// In which scans, from this one on.
    pub window: Window,
    /// What is to hold together.
    pub checks: Checks,
}

/// What a line of a case does once its inputs are set.
#[derive(Drop)]
pub enum Act {
    /// Nothing.
    Set,
    /// It makes scans.
    Scans(Pace),
    /// It makes a restart.
    Restart,
    /// It spoils bytes of a channel in the next scan, whose number in the case the fault has.
    Fault(Fault),
    /// It expects something of the scan before.
    Expect(Expectation),
}

/// A line of a case.
#[derive(Drop)]
pub struct Statement {
    /// The number of the line, from 1 on.
    pub line: u32,
    /// What inputs take first, in the order of the line: of two values of one input the last counts.
    pub settings: Settings,
    /// What it does then.
    pub act: Act,
}

/// A case. It means the statements before the first case of its file, and then its own: numbers of scans and times go
/// on.
#[derive(Drop)]
pub struct Case {
    /// The number of its `case` line.
    pub line: u32,
    /// Its name: 1 to 200 bytes, none below 32.
    pub name: Label,
    /// The statements after that line, up to the next case.
    pub statements: Statements,
}

/// A case file: what every case begins with, and the cases.
pub struct CaseFile {
    /// The statements before the first case.
    pub begin: Statements,
    /// The cases, of which there is one at least, in the order of the file.
    pub cases: Cases,
}

impl Drop for CaseFile {
    // One call for whoever owns one, in place of a walk through all that it holds.
    fn drop(self) {
        let CaseFile { begin: _, cases: _ } = self;
    }
}
