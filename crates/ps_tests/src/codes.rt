// Codes of channel C that are worked out by hand. Those of A and B are in `tests/calls/`, as `image` writes them, with
// their turns, and so are the lengths of all regions.

ghost use Rattle.ps_model.specs.Typing.{Accepted};

use crate::application::{MOTOR, application};
use ps_decision::decision_image;
use ps_model::App;
use std::alloc::Global;

const MOTOR_CODE: [u8; 127] = [
    2, 0xF0, 0, 1, 0, 0, 0, 8, // SET pin cell 0 := 1, on at 8
    1, 0, 0, 0, 0, 0, 19, 0, 0, 0, 27, // DECIDE S_In: 19, 27
    2, 0xF0, 1, 1, 0, 0, 0, 35, // SET pin cell 1 := 1, on at 35
    2, 0xF0, 1, 0, 0, 0, 0, 35, // SET pin cell 1 := 0, on at 35
    2, 0xF0, 2, 0, 0, 0, 0, 43, // SET pin cell 2 := 0, on at 43
    2, 0xF0, 3, 0, 0, 0, 0, 51, // SET pin cell 3 := 0, on at 51
    1, 0, 1, 0, 0, 0, 62, 0, 0, 0, 70, // DECIDE Ack: 62, 70
    2, 0xF0, 4, 1, 0, 0, 0, 78, // SET pin cell 4 := 1, on at 78
    2, 0xF0, 4, 0, 0, 0, 0, 78, // SET pin cell 4 := 0, on at 78
    3, 0, 0, 3, 0, 4, 0, 0, 0, 0, // CALL instance 0, kind 3, outputs from 4, limit 0
    1, 0, 4, 0, 0, 0, 99, 0, 0, 0, 118, // DECIDE E.S_EStopOut: 99, 118
    1, 0, 2, 0, 0, 0, 110, 0, 0, 0, 118, // DECIDE Run: 110, 118
    2, 0, 3, 1, 0, 0, 0, 126, // SET S_Motor := 1, on at 126
    2, 0, 3, 0, 0, 0, 0, 126, // SET S_Motor := 0, on at 126
    4, // END
];

// A TIME literal is the limit, a free S_ChannelNO is TRUE, and the two-hand control has 500 ms of its own.
const TIMES: &str = "PROGRAM T
VAR_INPUT S_A, S_B : SAFEBOOL; END_VAR
VAR A : SF_Antivalent; H : SF_TwoHandControlTypeIII; END_VAR
A(S_ChannelNC := S_A, DiscrepancyTime := T#50ms);
H(Activate := TRUE, S_Button1 := S_A, S_Button2 := S_B);
END_PROGRAM
";

const TIMES_CODE: [u8; 126] = [
    2, 0xF0, 0, 0, 0, 0, 0, 8, // SET pin cell 0 := 0, on at 8: Activate, free
    1, 0, 0, 0, 0, 0, 19, 0, 0, 0, 27, // DECIDE S_A: 19, 27
    2, 0xF0, 1, 1, 0, 0, 0, 35, // SET pin cell 1 := 1, on at 35
    2, 0xF0, 1, 0, 0, 0, 0, 35, // SET pin cell 1 := 0, on at 35
    2, 0xF0, 2, 1, 0, 0, 0, 43, // SET pin cell 2 := 1, on at 43: S_ChannelNO, free
    3, 0, 0, 2, 0, 2, 0, 0, 0, 50, // CALL instance 0, kind 2, outputs from 2, limit 50
    2, 0xF0, 0, 1, 0, 0, 0, 61, // SET pin cell 0 := 1, on at 61
    1, 0, 0, 0, 0, 0, 72, 0, 0, 0, 80, // DECIDE S_A: 72, 80
    2, 0xF0, 1, 1, 0, 0, 0, 88, // SET pin cell 1 := 1, on at 88
    2, 0xF0, 1, 0, 0, 0, 0, 88, // SET pin cell 1 := 0, on at 88
    1, 0, 1, 0, 0, 0, 99, 0, 0, 0, 107, // DECIDE S_B: 99, 107
    2, 0xF0, 2, 1, 0, 0, 0, 115, // SET pin cell 2 := 1, on at 115
    2, 0xF0, 2, 0, 0, 0, 0, 115, // SET pin cell 2 := 0, on at 115
    3, 0, 1, 7, 0, 5, 0, 0, 1, 0xF4, // CALL instance 1, kind 7, outputs from 5, limit 500
    4, // END
];

// Whether the code of an application in channel C has these bytes.
fn has_code(alloc: Global, app: &App, code: &[u8]) -> bool
    requires { Accepted app.now }
{
    match decision_image(alloc, app) {
        Ok(image) => image.as_slice() == code,
        Err(_) => false,
    }
}

// Whether the code of the application of a text in channel C has these bytes.
fn is_code(alloc: Global, text: &str, code: &[u8]) -> bool {
    match application(alloc, text) {
        Some(app) => has_code(alloc, &app, code),
        None => false,
    }
}

#[test]
fn codes(rt: HostRuntime) {
    assert!(rt; is_code(rt.alloc(), MOTOR, &MOTOR_CODE));
    assert!(rt; is_code(rt.alloc(), TIMES, &TIMES_CODE));
}
