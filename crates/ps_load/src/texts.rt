// The bytes of the texts that a load runs over.

ghost use Rattle.std.specs.Prelude.{◌≡◌, ◌≤◌, ◌<◌, ◌-◌, ◌*◌, ◌/◌, ◌%◌, ◌+◌, length, take, drop, min, not};
ghost use Rattle.ps_load.specs.Texts.{app_text, trace_text, scan_line as line_of, header_line, eight_digits};

// The text of the application: eight emergency stops, and an output that all of them release.
const APP: &[u8] = b"PROGRAM Load
VAR_INPUT S_0, S_1, S_2, S_3, S_4, S_5, S_6, S_7 : SAFEBOOL; Ack : BOOL; END_VAR
VAR_OUTPUT S_Out : SAFEBOOL; END_VAR
VAR E_0, E_1, E_2, E_3, E_4, E_5, E_6, E_7 : SF_EmergencyStop; END_VAR
E_0(Activate := TRUE, S_EStopIn := S_0, Reset := Ack);
E_1(Activate := TRUE, S_EStopIn := S_1, Reset := Ack);
E_2(Activate := TRUE, S_EStopIn := S_2, Reset := Ack);
E_3(Activate := TRUE, S_EStopIn := S_3, Reset := Ack);
E_4(Activate := TRUE, S_EStopIn := S_4, Reset := Ack);
E_5(Activate := TRUE, S_EStopIn := S_5, Reset := Ack);
E_6(Activate := TRUE, S_EStopIn := S_6, Reset := Ack);
E_7(Activate := TRUE, S_EStopIn := S_7, Reset := Ack);
S_Out := E_0.S_EStopOut AND E_1.S_EStopOut AND E_2.S_EStopOut AND E_3.S_EStopOut AND E_4.S_EStopOut AND E_5.S_EStopOut AND E_6.S_EStopOut AND E_7.S_EStopOut;
END_PROGRAM
";

// The header of the trace.
const HEADER: &[u8] = b"time S_0 S_1 S_2 S_3 S_4 S_5 S_6 S_7 Ack\n";

// The bytes of a scan line.
const SCAN_LINE: usize = 27;

// Where the value of the first block's input stands in it, and where that of the acknowledgement.
const FIRST_VALUE: usize = 9;

const ACK_AT: usize = 25;

// How many scans there are for each one of a load's number.
const SCANS: usize = 1000;

// The last digit of a number, and the number that is left without it.
fn last_digit(number: u32) -> (u8, u32)
    ensures digit { result.0 ≡ 48 + number % 10 }
    ensures left { result.1 ≡ number / 10 }
{
    let left = number / 10;
    (b'0' + (number - 10 * left) as u8, left)
}

// The time of a scan, counted from 0, in eight digits.
fn time_digits(scan: u32) -> [u8; 8]
    requires { scan < 1000000 }
    ensures { result ≡ eight_digits (10 * scan) }
{
    let (tens, left) = last_digit(scan);
    let (hundreds, left) = last_digit(left);
    let (thousands, left) = last_digit(left);
    let (ten_thousands, left) = last_digit(left);
    let (hundred_thousands, left) = last_digit(left);
    let (millions, _) = last_digit(left);
    [
        b'0',
        millions,
        hundred_thousands,
        ten_thousands,
        thousands,
        hundreds,
        tens,
        b'0',
    ]
}

// The line of a scan, counted from 0.
fn scan_line(scan: u32) -> [u8; SCAN_LINE]
    requires { scan < 1000000 }
    ensures { result ≡ line_of scan }
{
    let mut line = *b"00000000 1 1 1 1 1 1 1 1 0\n";
    line[..8].copy_from_slice(&time_digits(scan));
    match scan % 10 {
        3 => line[ACK_AT] = b'1',
        8 => line[FIRST_VALUE + 2 * (scan / 10 % 8) as usize] = b'0',
        _ => {}
    }
    line
}

// Copies the first bytes, as many as there is room for.
fn copy_first(from: &[u8], buf: &mut [u8]) -> usize
    ensures count { result ≡ min (length from.now) (length buf.new) }
    ensures bytes { take result buf.new ≡ take result from.now }
{
    let n = from.len().min(buf.len());
    buf[..n].copy_from_slice(&from[..n]);
    n
}

// Reads from the trace of a load, from a place on: the rest of a line, or as much of it as there is room for.
fn read_line(number: u32, at: usize, buf: &mut [u8]) -> usize
    requires number { number ≤ 1000 }
    requires within { at < length (trace_text number) }
    ensures some { 0 < length buf.new → 0 < result }
    ensures fits { result ≤ length buf.new }
    ensures there { result ≤ length (trace_text number) - at }
    ensures bytes { take result buf.new ≡ take result (drop at (trace_text number)) }
{
    if at < HEADER.len() {
        return copy_first(&HEADER[at..], buf);
    }
    let behind = at - HEADER.len();
    let line = scan_line((behind / SCAN_LINE) as u32);
    copy_first(&line[behind % SCAN_LINE..], buf)
}

/// Reads the trace of a load, from a place on: all that is left, or as much of it as there is room for.
pub(crate) fn read_trace(number: u32, at: u64, buf: &mut [u8]) -> usize
    requires { number ≤ 1000 }
    ensures count { result ≡ min (length (trace_text number) - at) (length buf.new) }
    ensures bytes { take result buf.new ≡ take result (drop at (trace_text number)) }
{
    let end = HEADER.len() + SCAN_LINE * SCANS * number as usize;
    let at = (at as usize).min(end);
    let most = buf.len().min(end - at);
    let mut done = 0;
    'lines: while done < most {
        done += read_line(number, at + done, &mut buf[done..]);
    }
    done
}

// The text of the application.
fn app() -> &'static [u8]
    ensures { result.now ≡ app_text }
{
    APP
}

/// Reads the text of the application, in the same way.
pub(crate) fn read_app(at: u64, buf: &mut [u8]) -> usize
    ensures count { result ≡ min (length app_text - at) (length buf.new) }
    ensures bytes { take result buf.new ≡ take result (drop at app_text) }
{
    let text = app();
    copy_first(&text[(at as usize).min(text.len())..], buf)
}
