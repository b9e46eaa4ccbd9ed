// What a rules file says.

ghost use Rattle.std.specs.Prelude.{◌≡◌};
ghost use Rattle.ps_bench_rules.specs.File.{pace_of};

use crate::limits::USUAL_PACE;
use crate::lists::{Conditions, Follows, Rules};
use ps_base::Label;
use ps_bench_names::{Name, Settings, Values};

/// What a rules file is read for.
#[derive(Clone, Copy)]
pub enum Purpose {
    /// For what must never be: there is one rule at least.
    Never,
    /// For a comparison of two applications: there is no rule, and what an input follows is an input or an output.
    Same,
}

/// How scans come.
#[derive(Clone, Copy)]
pub enum Pace {
    /// So many ms apart, from 1 to 60,000.
    Every(u32),
    /// At any times.
    Any,
}

/// An input that is the value of a signal after the scan before, or its negation. In a first scan the signal counts as
/// FALSE.
#[derive(Clone, Copy)]
pub struct Follow {
    /// The number of the input.
    pub input: u16,
    /// The number of the signal among inputs, outputs and locals.
    pub signal: u16,
    /// Whether it is the negation.
    pub denied: bool,
}

/// What is to hold in a scan. A value is a number: of a signal or a pin 0 for FALSE and 1 for TRUE, of an instance its
/// DiagCode.
#[derive(Drop)]
pub struct Condition {
    /// Whose value.
    pub name: Name,
    /// Whether the value after the scan before is meant: FALSE and 0000 before a first scan.
    pub before: bool,
    /// Whether it is to be none of the values, in place of one of them.
    pub denied: bool,
    /// The values, of which there is one at least, and no other where it is to be none of them.
    pub values: Values,
}

/// What must never be: a scan in which all of its conditions hold.
#[derive(Drop)]
pub struct Rule {
    /// The number of its `never` line.
    pub line: u32,
    /// Its name: 1 to 200 bytes, none below 32.
    pub name: Label,
    /// Its conditions, of which there is one at least.
    pub conditions: Conditions,
}

/// A rules file. Each input stands in one of `fixed`, `follows` and `first` at most, and once.
#[derive(Drop)]
pub struct RulesFile {
    /// How scans come, where the file says it.
    pub pace: Option<Pace>,
    /// Inputs that never change.
    pub fixed: Settings,
    /// Inputs that follow a signal.
    pub follows: Follows,
    /// Values of inputs in the first scan, and in the first after each restart.
    pub first: Settings,
    /// The rules, in the order of the file.
    pub rules: Rules,
    /// The number of the line after the last one, at which a limit of the whole file is refused.
    pub end: u32,
}

impl RulesFile {
    /// How scans come: 10 ms apart where the file does not say it.
    pub fn pace(&self) -> Pace
        ensures { result ≡ pace_of self.now }
    {
        match self.pace {
            Some(pace) => pace,
            None => Pace::Every(USUAL_PACE),
        }
    }
}
