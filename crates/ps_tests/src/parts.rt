// What is cut of an application for a rule.

use crate::application::application;
use crate::fixtures::{nothing, parts};
use ps_base::Memory;
use ps_cut::{Cut, cut_for};
use ps_model::App;
use ps_reach::{Asked, Check, InputRule, Rule, Source, Subject};
use std::alloc::Global;

// A press: a stop and a guard free two hands, whose latch is read before its call, since an error of the contactors
// opens it. One local is read before its assignment, too.
const PRESS: &str = "PROGRAM Press
VAR_INPUT S_E, S_G1, S_G2, S_L, S_R, S_K : SAFEBOOL; Ack, Auto : BOOL; END_VAR
VAR_OUTPUT S_Ram : SAFEBOOL; Lamp : BOOL; END_VAR
VAR
  S_Ready, S_Free : SAFEBOOL; Early : BOOL;
  Stop : SF_EmergencyStop; Guard : SF_GuardMonitoring; Hands : SF_TwoHandControlTypeIII; Edm : SF_EDM;
  Latch : SF_GuardLocking;
END_VAR
Early := S_Free AND (Stop.Error OR Auto OR Guard.Error AND Ack);
Stop(Activate := TRUE, S_EStopIn := S_E, Reset := Ack);
Guard(Activate := TRUE, S_GuardSwitch1 := S_G1, S_GuardSwitch2 := S_G2, DiscrepancyTime := T#100ms, Reset := Ack);
S_Ready := Stop.S_EStopOut AND Guard.S_GuardMonitoring;
Hands(Activate := S_Ready AND Latch.S_GuardLocked, S_Button1 := S_L, S_Button2 := S_R);
S_Free := S_Ready AND Hands.S_TwoHandOut;
Edm(Activate := TRUE, S_OutControl := S_Free, S_EDM1 := S_K, S_EDM2 := S_K, MonitoringTime := T#50ms, Reset := Ack);
S_Ram := Edm.S_EDM_Out;
Latch(Activate := TRUE, S_GuardLock := TRUE, UnlockRequest := Edm.Error, S_StartReset := TRUE);
Lamp := Stop.Error OR Guard.Error;
END_PROGRAM
";

// A row is a name of the press, which the rule is about: a signal, or an instance and its code. Then whether all
// instances are exact, and how many inputs and instances the part has.
const OF_PRESS: &str = "\
S_E none 1 0
S_Ram none 1 0
S_Ram all 7 5
S_Free none 3 0
Lamp none 2 0
Lamp all 4 2
Early none 9 0
Early all 8 5
Hands none 6 1
Edm none 5 1
Latch none 1 1
";

// A robot cell: two contacts, a stop and a door that is locked.
const ROBOT: &str = "PROGRAM Robot
VAR_INPUT S_A, S_B, S_Door : SAFEBOOL; Ack, Start : BOOL; END_VAR
VAR_OUTPUT S_Drive, S_Open : SAFEBOOL; END_VAR
VAR Eq : SF_Equivalent; Stop : SF_EmergencyStop; Door : SF_GuardLocking; END_VAR
Eq(Activate := TRUE, S_ChannelA := S_A, S_ChannelB := S_B, DiscrepancyTime := T#50ms);
Stop(Activate := TRUE, S_EStopIn := Eq.S_EquivalentOut, Reset := Ack);
Door(Activate := TRUE, S_GuardMonitoring := S_Door, S_SafetyActive := Stop.S_EStopOut, UnlockRequest := Start);
S_Drive := Stop.S_EStopOut AND Door.S_GuardLocked AND Start;
S_Open := Door.S_UnlockGuard;
END_PROGRAM
";

const OF_ROBOT: &str = "\
S_Door none 1 0
S_Drive none 3 0
S_Drive all 5 3
S_Open all 5 3
Stop none 2 1
Eq none 2 1
";

/// What a name stands for: a signal, or the code of an instance.
pub fn subject_of(app: &App, name: &str) -> Option<Subject> {
    for s in 0..app.declared_count() {
        if app.signal_name(s) == name {
            return Some(Subject::Signal(s));
        }
    }
    for i in 0..app.instance_count() {
        if app.instance_name(i) == name {
            return Some(Subject::Code(i));
        }
    }
    None
}

// The rule that this is so, where inputs may have any value.
fn asked_of(alloc: Global, app: &App, subject: Subject) -> Result<Asked, Memory> {
    let free = InputRule {
        source: Source::Free,
        first: None,
    };
    let inputs = vec![in alloc; free; usize::from(app.input_count())]?;
    let mut checks = Vec::new(alloc);
    checks.push(Check {
        subject,
        before: false,
        denied: false,
        values: Vec::new(alloc),
    })?;
    let mut rules = Vec::new(alloc);
    rules.push(Rule { checks })?;
    Ok(Asked {
        every: 100,
        inputs,
        rules,
    })
}

// What is cut for a row. None: out of memory, or nothing is.
fn cut_of(alloc: Global, app: &App, name: &str, is_exact: bool) -> Option<Cut> {
    let subject = subject_of(app, name)?;
    let Ok(asked) = asked_of(alloc, app, subject) else {
        return None;
    };
    let exact: &[bool] = if is_exact { &[true; 5] } else { &[] };
    cut_for(alloc, app, &asked, 0, exact).ok().flatten()
}

// Whether a part has as many inputs and instances as a row says.
fn row_met(alloc: Global, app: &App, row: &str) -> bool {
    let (name, exact, inputs, instances) = parts(row);
    match cut_of(alloc, app, name, exact == "all") {
        Some(cut) => {
            inputs.parse::<u16>() == Ok(cut.part.app.input_count())
                && instances.parse::<u16>() == Ok(cut.part.app.instance_count())
        }
        None => false,
    }
}

// The first row that the application of a text does not meet; empty: it meets all.
fn wrong_row<'a>(alloc: Global, text: &str, rows: &'a str) -> &'a str {
    let Some(app) = application(alloc, text) else {
        return rows;
    };
    for row in rows.lines() {
        if !row_met(alloc, &app, row) {
            return row;
        }
    }
    ""
}

#[test]
fn parts_of_applications(rt: HostRuntime) {
    nothing(&rt, wrong_row(rt.alloc(), PRESS, OF_PRESS));
    nothing(&rt, wrong_row(rt.alloc(), ROBOT, OF_ROBOT));
}
