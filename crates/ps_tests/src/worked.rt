// Worked tables: texts of applications, and tables of scans that they meet, each from the start. A table is its name and
// rows, with an empty line before it. A row is a scan's time in ms and its inputs, a digit each, and what is to come: the
// outputs, a digit each, and the DiagCode of each instance.

/// The tables of M, an emergency stop and a motor after it. Ordinary use: freed by an edge of Reset, stopped by the process
/// and by the emergency stop. A Reset that is held is an error. Scans that begin anew at a later time. The earliest and the
/// latest time.
pub const OF_MOTOR: &str = "\
ordinary use
0 101 0 8001
10 101 0 8002
20 101 0 8003
30 111 1 8000
40 100 0 8000
50 001 0 8004

held reset
0 101 0 8001
10 111 0 8002
20 111 0 C001

behind a restart
30 101 0 8001
40 101 0 8002

largest time
0 000 0 8001
4294967295 000 0 8002
";

/// Texts, and after each its tables. A line of `====` stands between a text's last table and the next text.
pub const OTHERS: &str = concat!(
    // Two contacts that are to agree within 50 ms.
    "PROGRAM Eq \
VAR_INPUT S_A : SAFEBOOL; S_B : SAFEBOOL; END_VAR \
VAR_OUTPUT S_O : SAFEBOOL; END_VAR \
VAR Q : SF_Equivalent; END_VAR \
Q(Activate := TRUE, S_ChannelA := S_A, S_ChannelB := S_B, DiscrepancyTime := T#50ms); \
S_O := Q.S_EquivalentOut; \
END_PROGRAM

",
    // Limit of a timer: the second contact follows after 50 ms, which is too late.
    // Limit of a timer: the second contact follows after 49 ms.
    "\
late contact
0 00 0 8001
10 10 0 8004
60 11 0 C001

contact in time
0 00 0 8001
10 10 0 8004
59 11 1 8000
====
",
    // Two contacts that are to agree at once.
    "PROGRAM Eq \
VAR_INPUT S_A : SAFEBOOL; S_B : SAFEBOOL; END_VAR \
VAR_OUTPUT S_O : SAFEBOOL; END_VAR \
VAR Q : SF_Equivalent; END_VAR \
Q(Activate := TRUE, S_ChannelA := S_A, S_ChannelB := S_B); \
S_O := Q.S_EquivalentOut; \
END_PROGRAM

",
    // Limit 0: a limit that is not given has elapsed at once.
    "\
limit zero
5 10 0 8001
5 10 0 8004
5 10 0 C001
====
",
    // Two contacts of which one opens where the other closes, within 50 ms.
    "PROGRAM Anti \
VAR_INPUT S_NC : SAFEBOOL; S_NO : SAFEBOOL; END_VAR \
VAR_OUTPUT S_O : SAFEBOOL; END_VAR \
VAR Q : SF_Antivalent; END_VAR \
Q(Activate := TRUE, S_ChannelNC := S_NC, S_ChannelNO := S_NO, DiscrepancyTime := T#50ms); \
S_O := Q.S_AntivalentOut; \
END_PROGRAM

",
    // Antivalent contacts: closed in time, opened too late, and begun anew.
    "\
antivalent contacts
0 01 0 8001
10 11 0 8004
20 10 1 8000
30 11 0 8005
80 11 0 C003
90 01 0 8001
====
",
    // A two-hand control of type III, whose buttons are to follow each other within 500 ms.
    "PROGRAM H \
VAR_INPUT S_1 : SAFEBOOL; S_2 : SAFEBOOL; END_VAR \
VAR_OUTPUT S_O : SAFEBOOL; END_VAR \
VAR H3 : SF_TwoHandControlTypeIII; END_VAR \
H3(Activate := TRUE, S_Button1 := S_1, S_Button2 := S_2); \
S_O := H3.S_TwoHandOut; \
END_PROGRAM

",
    // Fixed time of type III: the second button within 499 ms.
    // Fixed time of type III: the second button after 500 ms.
    // Fixed time of type III: one button alone for 500 ms.
    "\
second button in time
0 00 0 8001
10 00 0 8004
20 10 0 8005
519 11 1 8000

second button late
0 00 0 8001
10 00 0 8004
20 10 0 8005
520 11 0 C006

no second button
0 00 0 8001
10 00 0 8004
20 10 0 8005
520 10 0 C004
====
",
    // A selector of two modes, of which one is to be chosen within a second.
    "PROGRAM Modes \
VAR_INPUT S_A : SAFEBOOL; S_B : SAFEBOOL; S_U : SAFEBOOL; Ack : BOOL; END_VAR \
VAR_OUTPUT S_M1 : SAFEBOOL; END_VAR \
VAR K : SF_ModeSelector; END_VAR \
K(Activate := TRUE, S_Mode0 := S_A, S_Mode1 := S_B, S_Unlock := S_U, AutoSetMode := TRUE, \
ModeMonitorTime := T#1s, Reset := Ack); \
S_M1 := K.S_Mode1Sel; \
END_PROGRAM

",
    // Mode selector: two modes at once, a held Reset, a mode latched and locked, none for a second.
    "\
mode selector
0 1111 0 8005
10 1111 0 C001
20 1111 0 C003
30 1110 0 C001
40 0111 0 8005
50 0110 1 8000
60 0100 1 8004
70 0000 1 8004
80 0010 0 8005
1080 0010 0 C002
====
",
    // The selector of modes, where at Reset, the last of thirteen pins, ORs and ANDs are nested as deep as a text can have
    // them.
    "PROGRAM Modes
VAR_INPUT S_A : SAFEBOOL; S_B : SAFEBOOL; S_U : SAFEBOOL; Ack : BOOL; END_VAR
VAR_OUTPUT S_M1 : SAFEBOOL; END_VAR
VAR K : SF_ModeSelector; END_VAR
K(Activate := TRUE, S_Mode0 := S_A, S_Mode1 := S_B, S_Unlock := S_U, AutoSetMode := TRUE,
ModeMonitorTime := T#1s, Reset :=
Ack OR S_A AND (Ack OR S_A AND (Ack OR S_A AND (Ack OR S_A AND (
Ack OR S_A AND (Ack OR S_A AND (Ack OR S_A AND (Ack OR S_A AND (
Ack OR S_A AND (Ack OR S_A AND (Ack OR S_A AND (Ack OR S_A AND (
Ack OR S_A AND (Ack OR S_A AND (Ack OR S_A AND (Ack OR S_A AND (
Ack OR S_A AND Ack
)))))))))))))))));
S_M1 := K.S_Mode1Sel;
END_PROGRAM

",
    // The same table.
    "\
deepest expression at the last pin
0 1111 0 8005
10 1111 0 C001
20 1111 0 C003
30 1110 0 C001
40 0111 0 8005
50 0110 1 8000
60 0100 1 8004
70 0000 1 8004
80 0010 0 8005
1080 0010 0 C002
====
",
    // An enabling switch with two contacts.
    "PROGRAM En \
VAR_INPUT S_1 : SAFEBOOL; S_2 : SAFEBOOL; Ack : BOOL; END_VAR \
VAR_OUTPUT S_O : SAFEBOOL; END_VAR \
VAR Q : SF_EnableSwitch; END_VAR \
Q(Activate := TRUE, S_SafetyActive := TRUE, S_EnableSwitchCh1 := S_1, S_EnableSwitchCh2 := S_2, \
Reset := Ack); \
S_O := Q.S_EnableSwitchOut; \
END_PROGRAM

",
    // Enable switch: pressed, pressed through, released, and freed by an edge of Reset.
    "\
enable switch
0 010 0 8004
10 010 0 8005
20 010 0 8006
30 110 1 8000
40 000 0 8007
50 110 0 C030
60 010 0 C040
70 011 0 8006
80 111 1 8000
====
",
    // A guard with a lock.
    "PROGRAM Gl \
VAR_INPUT S_M : SAFEBOOL; S_S : SAFEBOOL; S_L : SAFEBOOL; U : BOOL; Ack : BOOL; END_VAR \
VAR_OUTPUT S_Lk : SAFEBOOL; S_Un : SAFEBOOL; END_VAR \
VAR Q : SF_GuardLocking; END_VAR \
Q(Activate := TRUE, S_GuardMonitoring := S_M, S_SafetyActive := S_S, S_GuardLock := S_L, \
UnlockRequest := U, Reset := Ack); \
S_Lk := Q.S_GuardLocked; \
S_Un := Q.S_UnlockGuard; \
END_PROGRAM

",
    // Guard locking: unlocked on request, opened, closed and locked again, and opened while it is locked.
    "\
guard locking
0 10100 00 8001
10 10100 00 8003
20 10101 10 8000
30 11111 01 8013
40 01011 01 8012
50 11010 01 8013
60 11000 00 8011
70 10101 10 8000
80 00101 00 C004
90 10101 00 C004
====
",
    // A safety request that is to be acknowledged within 100 ms.
    "PROGRAM Sr \
VAR_INPUT S_Op : SAFEBOOL; S_K : SAFEBOOL; Ack : BOOL; END_VAR \
VAR_OUTPUT S_Ac : SAFEBOOL; S_Rq : SAFEBOOL; END_VAR \
VAR Q : SF_SafetyRequest; END_VAR \
Q(Activate := TRUE, S_OpMode := S_Op, S_Acknowledge := S_K, Reset := Ack, MonitoringTime := T#100ms); \
S_Ac := Q.S_SafetyActive; \
S_Rq := Q.S_SafetyRequest; \
END_PROGRAM

",
    // Safety request: no acknowledgement in time, an edge of Reset, a request that is answered, and one that is lost.
    "\
safety request
0 000 00 8001
10 000 00 8003
110 000 00 C003
120 001 00 8005
130 101 00 8012
140 100 00 8012
150 101 01 8002
160 011 00 8003
170 011 10 8000
180 001 00 C002
190 001 00 C004
200 000 00 C002
====
",
    // A press with an emergency stop, a guard, a two-hand control and two contactors.
    "PROGRAM Press \
VAR_INPUT \
S_EStop, S_G1, S_G2, S_L, S_R, S_K1, S_K2 : SAFEBOOL; \
Ack, Auto : BOOL; \
END_VAR \
VAR_OUTPUT S_Ram : SAFEBOOL; Lamp : BOOL; END_VAR \
VAR \
S_Free : SAFEBOOL; \
Stop : SF_EmergencyStop; Guard : SF_GuardMonitoring; \
Hands : SF_TwoHandControlTypeIII; Out : SF_OutControl; Edm : SF_EDM; \
END_VAR \
Stop(Activate := TRUE, S_EStopIn := S_EStop, Reset := Ack); \
Guard(Activate := TRUE, S_GuardSwitch1 := S_G1, S_GuardSwitch2 := S_G2, \
DiscrepancyTime := T#100ms, S_StartReset := TRUE, S_AutoReset := TRUE); \
Hands(Activate := TRUE, S_Button1 := S_L, S_Button2 := S_R); \
S_Free := Stop.S_EStopOut AND Guard.S_GuardMonitoring AND Hands.S_TwoHandOut; \
Out(Activate := TRUE, S_SafeControl := S_Free, ProcessControl := Auto, \
StaticControl := TRUE, S_StartReset := TRUE, S_AutoReset := TRUE); \
Edm(Activate := TRUE, S_OutControl := Out.S_OutControl, S_EDM1 := S_K1, \
S_EDM2 := S_K2, MonitoringTime := T#50ms, S_StartReset := TRUE, Reset := Ack); \
S_Ram := Edm.S_EDM_Out; \
Lamp := Stop.Error OR Guard.Error OR Edm.Error; \
END_PROGRAM

",
    // A press: freed, worked by two hands, opened at work, and stopped by a contactor that does not fall.
    "\
press
0 111001101 00 8001 8001 8001 8001 8001
100 111001101 00 8002 8000 8004 8002 8010
200 111001101 00 8003 8000 8004 8002 8010
300 111001111 00 8000 8000 8004 8002 8010
400 111101101 00 8000 8000 8005 8002 8010
600 111111101 00 8000 8000 8000 8010 8010
700 111111101 10 8000 8000 8000 8000 8000
740 111110001 10 8000 8000 8000 8000 8000
800 101110001 00 8000 8002 8000 8002 8010
820 100001101 00 8000 8012 8004 8002 8010
2000 110001101 00 8000 8004 8004 8002 8010
2060 111001101 00 8000 8005 8004 8002 8010
2100 111001101 00 8000 8000 8004 8002 8010
2200 111111101 00 8000 8000 8000 8010 8010
2300 111111101 10 8000 8000 8000 8000 8000
2360 111111001 01 8000 8000 8000 8000 C070
2400 111001101 01 8000 8000 8004 8002 C070
2500 111001111 00 8000 8000 8004 8002 8010
====
",
    // Locals that are read before they are assigned.
    "PROGRAM Fb \
VAR_INPUT S_In : SAFEBOOL; END_VAR \
VAR_OUTPUT S_O : SAFEBOOL; END_VAR \
VAR X, Y : SAFEBOOL; END_VAR \
X := Y AND S_In; Y := S_In; S_O := X; \
END_PROGRAM

",
    // Feedback: a local that is read before its assignment has the value of the scan before.
    "\
feedback of locals
0 1 0
10 1 1
20 0 0
====
",
    // ORs within ANDs within ORs, as deep as a text can have them: 17 sums, each an OR with an AND in it.
    "PROGRAM D
VAR_INPUT S_A, S_B, S_C : SAFEBOOL; END_VAR
VAR_OUTPUT S_O : SAFEBOOL; END_VAR
S_O := S_A OR S_B AND (S_A OR S_B AND (S_A OR S_B AND (S_A OR S_B AND (
S_A OR S_B AND (S_A OR S_B AND (S_A OR S_B AND (S_A OR S_B AND (
S_A OR S_B AND (S_A OR S_B AND (S_A OR S_B AND (S_A OR S_B AND (
S_A OR S_B AND (S_A OR S_B AND (S_A OR S_B AND (S_A OR S_B AND (
S_A OR S_B AND S_C
))))))))))))))));
END_PROGRAM

",
    // S_O is S_A OR S_B AND S_C.
    "\
deepest expression
0 000 0
10 001 0
20 010 0
30 011 1
40 100 1
50 110 1
",
);
