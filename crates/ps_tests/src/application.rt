// From the text of an application to the accepted application, and texts that several tests take.

ghost use Rattle.std.specs.Prelude.{IfSome};
ghost use Rattle.ps_model.specs.Typing.{Accepted};

use ps_accepted::accept_text;
use ps_model::App;
use std::alloc::Global;

/// An emergency stop, and a motor after it. Its codes have 33 bytes in channel A, 37 in B and 127 in C, its cells 97, 84
/// and 45; a scan without faults has 11 turns of A and 5 of B.
pub const MOTOR: &str = "PROGRAM M
VAR_INPUT S_In : SAFEBOOL; Ack, Run : BOOL; END_VAR
VAR_OUTPUT S_Motor : SAFEBOOL; END_VAR
VAR E : SF_EmergencyStop; END_VAR
E(Activate := TRUE, S_EStopIn := S_In, Reset := Ack);
S_Motor := E.S_EStopOut AND Run;
END_PROGRAM
";

/// Two outputs and two emergency stops, so a report has eight fields. A scan without faults has 17 turns of A and 5 of
/// B.
pub const TWO: &str = "PROGRAM Two
VAR_INPUT S_1, S_2 : SAFEBOOL; Ack : BOOL; END_VAR
VAR_OUTPUT S_A, S_B : SAFEBOOL; END_VAR
VAR E, F : SF_EmergencyStop; END_VAR
E(Activate := TRUE, S_EStopIn := S_1, Reset := Ack);
F(Activate := TRUE, S_EStopIn := S_2, Reset := Ack);
S_A := E.S_EStopOut;
S_B := F.S_EStopOut;
END_PROGRAM
";

/// The accepted application of a text. None: a rule refuses the text, or out of memory.
pub fn application(alloc: Global, text: &str) -> Option<App>
    ensures { IfSome result Accepted }
{
    match accept_text(alloc, text.as_bytes()) {
        Ok(accepted) => Some(accepted.into_parts().0),
        Err(_) => None,
    }
}

/// A text with a part that stands many times. None: out of memory.
pub fn repeated(alloc: Global, begin: &str, part: &str, count: u32, end: &str) -> Option<String> {
    let Ok(mut text) = String::from_str(alloc, begin) else {
        return None;
    };
    let mut is_whole = true;
    for _ in 0..count {
        is_whole = text.push_str(part).is_ok() && is_whole;
    }
    is_whole = text.push_str(end).is_ok() && is_whole;
    if is_whole { Some(text) } else { None }
}
