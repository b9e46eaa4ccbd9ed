// Channels of one instance of a kind, their codes, and values of scans. M has three inputs, one output and one
// SF_EmergencyStop, so seven signals.

ghost use Rattle.std.specs.Prelude.{◌≡◌, ◌+◌, ◌<◌, ◌^◌, IfOk, length};

use ps_base::Memory;
use ps_machine::{CodeImage, ScanMachine};
use ps_model::{Bits, FirstPins, Kind, Kinds, Progress, Region, Report, Sizes, output_count};
use std::alloc::Global;
use std::process::Abort;

/// Asserts that no row of a table is wrong: `row` is the number of the first that is, counted from 1, or 0.
pub fn no_row(rt: &impl Abort, row: usize) {
    assert!(rt; row == 0, "row {row}");
}

/// Asserts that nothing of a table is wrong: `text` is the first part of it that is, or empty.
pub fn nothing(rt: &impl Abort, text: &str) {
    assert!(rt; text.is_empty(), "{text}");
}

/// What `number_of` says of a scan that runs, and of one that is done.
pub const RUNS: u8 = 254;

pub const DONE: u8 = 255;

/// A progress as a number: that of its trap, or one of the two above.
pub fn number_of(progress: Progress) -> u8 {
    match progress {
        Progress::Running => RUNS,
        Progress::Done => DONE,
        Progress::Trapped(trap) => trap,
    }
}

/// The sizes of one instance of a kind, whose outputs stand after so many inputs and outputs.
pub fn sizes(alloc: Global, kind: Kind, inputs: u16, outputs: u8) -> Result<Sizes, Memory>
    requires { inputs < 2 ^ 15 }
    ensures { IfOk result (λ s. s.inputs ≡ inputs) }
{
    let first = inputs + u16::from(outputs);
    let mut first_pins = FirstPins::new(alloc);
    first_pins.push(first)?;
    let mut kinds = Kinds::new(alloc);
    kinds.push(kind)?;
    Ok(Sizes {
        signals: first + u16::from(output_count(kind)),
        instances: 1,
        inputs,
        outputs: u16::from(outputs),
        first_pins,
        kinds,
    })
}

/// These bytes as an image.
pub fn image(alloc: Global, code: &[u8]) -> Result<CodeImage, Memory>
    requires { length code.now < 2 ^ 32 }
{
    let mut image = CodeImage::new(alloc);
    image.extend_from_slice(code)?;
    Ok(image)
}

/// The bits of digits: TRUE for 1, and FALSE for all else.
pub fn bits_of(alloc: Global, digits: &str) -> Result<Bits, Memory> {
    let mut bits = Bits::new(alloc);
    for digit in digits.as_bytes() {
        bits.push(*digit == b'1')?;
    }
    Ok(bits)
}

/// The parts of a row with spaces between: a time, the inputs, the outputs, and the codes, which may be several or none.
pub fn parts(row: &str) -> (&str, &str, &str, &str) {
    let (now, rest) = row.split_once(' ').unwrap_or((row, ""));
    let (ins, rest) = rest.split_once(' ').unwrap_or((rest, ""));
    let (outs, codes) = rest.split_once(' ').unwrap_or((rest, ""));
    (now, ins, outs, codes)
}

// Whether the outputs of a report are these, a digit each.
fn has_outputs(report: &Report, digits: &[u8]) -> bool {
    if report.outs.len() != digits.len() {
        return false;
    }
    let mut is_so = true;
    for i in 0..digits.len() {
        is_so = report.outs.at(i) == (digits[i] == b'1') && is_so;
    }
    is_so
}

// Whether an instance of a report is in this state, in hexadecimal.
fn has_code(report: &Report, i: usize, code: &str) -> bool {
    match u16::from_str_radix(code, 16) {
        Ok(code) => i < report.diags.len() && report.diags.at(i).code == code,
        Err(_) => false,
    }
}

/// Whether a report has these outputs, a digit each, and instances in these states, in hexadecimal with a space between.
pub fn shows(report: &Report, outs: &str, codes: &str) -> bool {
    let mut is_so = has_outputs(report, outs.as_bytes());
    let mut count: usize = 0;
    for code in codes.split_whitespace() {
        is_so = has_code(report, count, code) && is_so;
        count = count.saturating_add(1);
    }
    is_so && count == report.diags.len()
}

// Places around the end of a region, from its length on: how far above it the first byte stands, how far below it, how
// many bytes are replaced, and whether they lie in the region.
const ENDS: [(u32, u32, usize, bool); 7] = [
    (0, 0, 0, true),
    (0, 0, 1, false),
    (0, 1, 1, true),
    (0, 1, 2, false),
    (1, 0, 0, false),
    (u32::MAX, 0, 0, false),
    (u32::MAX, 0, 1, false),
];

/// Whether a region of a channel has this length, and bytes can be replaced up to its end and not past it.
pub fn ends_at<M: ScanMachine>(channel: &mut M, region: Region, length: u32) -> bool {
    let bytes = [0xF5; 2];
    let mut is_so = channel.region_len(region) == length;
    for (above, below, count, inside) in ENDS {
        let at = length.saturating_add(above).saturating_sub(below);
        let is_done = count <= bytes.len() && channel.spoil(region, at, &bytes[..count]).is_ok();
        is_so = is_so && is_done == inside;
    }
    is_so
}
