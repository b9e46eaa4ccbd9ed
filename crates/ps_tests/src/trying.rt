// Runs that are tried in the plain evaluator.

use crate::application::application;
use crate::fixtures::{nothing, parts};
use crate::parts::subject_of;
use ps_base::Memory;
use ps_cut::tried;
use ps_model::App;
use ps_reach::{Asked, Check, InputRule, Rule, ScanInputs, Source, Subject};
use std::alloc::Global;

// S_F follows S_Both, and S_Old is S_Both of the scan before.
const APPLICATION: &str = "PROGRAM Tries
VAR_INPUT S_A, S_B, S_F : SAFEBOOL; END_VAR
VAR_OUTPUT S_Out : SAFEBOOL; END_VAR
VAR S_Old, S_Both : SAFEBOOL; Stop : SF_EmergencyStop; END_VAR
S_Old := S_Both;
S_Both := S_A AND S_B;
S_Out := S_Old AND S_F;
Stop(Activate := S_A, S_EStopIn := S_B);
END_PROGRAM
";

// A row is a signal that is to be TRUE after the last scan, or an instance that is to be in its first state; the inputs
// that are wanted in each scan; and those with which it is so, if it is.
const ROWS: &str = "\
S_Both 110 110
S_Both 111 110
S_Both 100 -
S_Both 110,100 -
S_F 111 -
S_F 110,000 110,001
S_Old 110 -
S_Old 110,000 110,001
S_Old 110,000,000 -
S_Out 110,100 110,101
Stop 100 100
Stop 000 -
";

// What is asked: whether a name stands at this value, where S_F follows S_Both.
fn asked_of(alloc: Global, app: &App, name: &str) -> Result<Option<Asked>, Memory> {
    let (Some(subject), Some(Subject::Signal(both))) = (
        subject_of(app, name),
        subject_of(app, "S_Both"),
    ) else {
        return Ok(None);
    };
    let value = match subject {
        Subject::Code(_) => 0x8001,
        _ => 1,
    };
    let free = InputRule {
        source: Source::Free,
        first: None,
    };
    let follows = InputRule {
        source: Source::Follows {
            signal: both,
            negated: false,
        },
        first: None,
    };
    let inputs = vec![in alloc; free, free, follows]?;
    let check = Check {
        subject,
        before: false,
        denied: false,
        values: vec![in alloc; value]?,
    };
    let mut checks = Vec::new(alloc);
    checks.push(check)?;
    let mut rules = Vec::new(alloc);
    rules.push(Rule { checks })?;
    Ok(Some(Asked {
        every: 100,
        inputs,
        rules,
    }))
}

// The inputs of scans, of which 1 is TRUE.
fn scans_of(alloc: Global, text: &str) -> Result<Vec<ScanInputs>, Memory> {
    let mut scans = Vec::new(alloc);
    for digits in text.split(',') {
        let mut values = Vec::new(alloc);
        for digit in digits.as_bytes() {
            values.push(*digit == b'1')?;
        }
        scans.push(ScanInputs { values })?;
    }
    Ok(scans)
}

// Whether both are the same inputs.
fn are_same(scans: &[ScanInputs], others: &[ScanInputs]) -> bool {
    if scans.len() != others.len() {
        return false;
    }
    for k in 0..scans.len() {
        if scans[k].values.as_slice() != others[k].values.as_slice() {
            return false;
        }
    }
    true
}

// Whether a row is met.
fn row_met(alloc: Global, app: &App, row: &str) -> Result<bool, Memory> {
    let (name, wanted, come, _) = parts(row);
    let Some(asked) = asked_of(alloc, app, name)? else {
        return Ok(false);
    };
    let wanted = scans_of(alloc, wanted)?;
    match tried(alloc, app, &asked, 0, wanted.as_slice())? {
        Some(scans) => {
            let come = scans_of(alloc, come)?;
            Ok(are_same(scans.as_slice(), come.as_slice()))
        }
        None => Ok(come == "-"),
    }
}

// The first row that is not met; empty: all are.
fn wrong_row(alloc: Global) -> &'static str {
    let Some(app) = application(alloc, APPLICATION) else {
        return ROWS;
    };
    for row in ROWS.lines() {
        if !matches!(row_met(alloc, &app, row), Ok(true)) {
            return row;
        }
    }
    ""
}

#[test]
fn runs_that_are_tried(rt: HostRuntime) {
    nothing(&rt, wrong_row(rt.alloc()));
}
