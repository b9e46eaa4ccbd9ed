// Texts that are read in pieces, and reads that fail: lines, scans and fault files.

ghost use Rattle.std.specs.Prelude.{◌≡◌, length};
ghost use Rattle.ps_trace.specs.Reading.{input_count_of};

use crate::application::{MOTOR, application, repeated};
use crate::fixtures::no_row;
use ps_base::Rule;
use ps_lines::{Got, Limits, LineReader};
use ps_model::{App, ImageSizes, Scan};
use ps_outside::{Failed, MemFiles};
use ps_trace::{Next, TraceFail, TraceReader, TraceStop, read_faults};
use std::alloc::Global;

// Files with this text under T, which is read in pieces of at most so many bytes, or whole (0), and of which a read
// fails, or none (0). None: out of memory.
fn files_of(alloc: Global, text: &str, most: u32, failing: u32) -> Option<MemFiles> {
    let mut files = MemFiles::new(alloc);
    if most > 0 {
        files.cut_to(most);
    }
    if files.put("T", text.as_bytes()).is_ok() && files.fail_at(failing).is_ok() {
        Some(files)
    } else {
        None
    }
}

// What a read of a line comes to, as a word.
fn word_of(got: Result<Got, Failed>) -> &'static str {
    match got {
        Ok(Got::Line) => "line",
        Ok(Got::LastLine) => "last",
        Ok(Got::TooLong) => "long",
        Ok(Got::TooLarge) => "large",
        Ok(Got::End) => "end",
        Err(Failed) => "fault",
    }
}

// A text, the most bytes of a piece, the read that fails, and what each read of a line comes to, with the line that is
// there then and a semicolon after it. A line has at most 4 bytes, and a text 12. After a read that fails the next call
// goes on with the same line.
static LINES: &[(&str, u32, u32, &str)] = &[
    ("", 0, 0, "end "),
    ("a\r\n\nb\r", 0, 0, "line a;line ;last b\r;end b\r"),
    ("abcd\nabc\r\n", 0, 0, "line abcd;line abc;end abc"),
    ("abcd\r\n12345\n", 0, 0, "long ;long ;end "),
    ("abcd\nabcd\nab\na", 0, 0, "line abcd;line abcd;large abcd"),
    ("ab\ncd", 4, 2, "line ab;fault ab;last cd;end cd"),
];

// Whether a read of a line comes to this word, and this line is there then, with a space between both.
fn is_read(reader: &mut LineReader, files: &mut MemFiles, read: &str) -> bool {
    let (word, line) = read.split_once(' ').unwrap_or((read, ""));
    word_of(reader.next_line(files)) == word && reader.line() == line.as_bytes()
}

// Whether the reads of some files come to that.
fn are_read(alloc: Global, files: &mut MemFiles, reads: &str) -> bool {
    let limits = Limits {
        longest: 4,
        largest: 12,
    };
    let Ok(mut reader) = LineReader::start(alloc, "T", limits) else {
        return false;
    };
    let mut is_so = true;
    for read in reads.split(';') {
        is_so = is_read(&mut reader, files, read) && is_so;
    }
    is_so
}

// Whether the reads of a text come to that.
fn has_lines(alloc: Global, text: &str, most: u32, failing: u32, reads: &str) -> bool {
    match files_of(alloc, text, most, failing) {
        Some(mut files) => are_read(alloc, &mut files, reads),
        None => false,
    }
}

// The number of the first row of `LINES` that is not met, counted from 1; 0: there is none.
fn wrong_line(alloc: Global) -> usize {
    for row in 0..LINES.len() {
        let (text, most, failing, reads) = LINES[row];
        if !has_lines(alloc, text, most, failing, reads) {
            return row + 1;
        }
    }
    0
}

// What comes after the scans of a trace.
const END: u32 = 0;

const RESTART: u32 = 1;

const FAULT: u32 = 2;

const REFUSED: u32 = 3;

// How many scans come, and what comes then.
fn count(reader: &mut TraceReader, files: &mut MemFiles, scan: &mut Scan) -> (u32, u32)
    requires { length scan.old.ins ≡ input_count_of reader.old }
    ensures { length scan.new.ins ≡ input_count_of reader.new }
{
    'scans: for count in 0..2000u32 {
        match reader.next_scan(files, scan) {
            Ok(Next::Scan) => {}
            Ok(Next::Restart) => return (count, RESTART),
            Ok(Next::End) => return (count, END),
            Err(TraceStop::Fault) => return (count, FAULT),
            Err(TraceStop::Refused(_)) => return (count, REFUSED),
        }
    }
    (2000, END)
}

// Whether so many scans of a trace of an application come and that then, and so many and that after them.
fn are_counted(
    alloc: Global,
    app: &App,
    files: &mut MemFiles,
    first: (u32, u32),
    second: (u32, u32),
) -> bool {
    let Ok(mut scan) = Scan::for_app(alloc, app) else {
        return false;
    };
    match TraceReader::start(alloc, files, "T", app) {
        Ok(mut reader) => {
            count(&mut reader, files, &mut scan) == first
                && count(&mut reader, files, &mut scan) == second
        }
        Err(_) => false,
    }
}

// The header of M's traces.
const HEADER: &str = "time S_In Ack Run\n";

// A scan, which stands after the header.
const SCAN: &str = "0 1 0 1\n";

// A scan that is refused, and one after it.
const REFUSING: &str = "10 1 0 2\n20 1 0 1\n";

// How often the scan stands after the header, what stands after it, the most bytes of a piece, the read that fails, and
// how many scans come, and what then, twice. The first piece of the last trace has the header and 509 whole lines.
static TRACES: &[(u32, &str, u32, u32, (u32, u32), (u32, u32))] = &[
    (3, "restart\n5 1 0 1", 0, 0, (3, RESTART), (1, END)),
    (3, "restart\n5 1 0 1", 1, 0, (3, RESTART), (1, END)),
    (3, "restart\n5 1 0 1", 3, 0, (3, RESTART), (1, END)),
    (2, REFUSING, 0, 0, (2, REFUSED), (0, REFUSED)),
    (2, REFUSING, 1, 0, (2, REFUSED), (0, REFUSED)),
    (2, "", 3, 0, (2, END), (0, END)),
    (1000, "", 0, 2, (509, FAULT), (491, END)),
];

// Whether that comes of a trace of an application with so many scans, and this after them.
fn has_scans(
    alloc: Global,
    app: &App,
    row: &(u32, &str, u32, u32, (u32, u32), (u32, u32)),
) -> bool {
    let (times, end, most, failing, first, second) = *row;
    let Some(text) = repeated(alloc, HEADER, SCAN, times, end) else {
        return false;
    };
    match files_of(alloc, text.as_str(), most, failing) {
        Some(mut files) => are_counted(alloc, app, &mut files, first, second),
        None => false,
    }
}

// The number of the first row of `TRACES` that M does not meet, counted from 1; 0: there is none.
fn wrong_trace(alloc: Global) -> usize {
    let Some(app) = application(alloc, MOTOR) else {
        return 100;
    };
    for row in 0..TRACES.len() {
        if !has_scans(alloc, &app, &TRACES[row]) {
            return row + 1;
        }
    }
    0
}

// The lengths of the regions for which fault files are read.
const SIZES: ImageSizes = ImageSizes {
    a_code: 40,
    a_cells: 97,
    b_code: 50,
    b_cells: 4_294_967_295,
};

// Fault files: a text, and how many faults it has; 0 where the rule F3 refuses its first line.
static FAULTS: &[(&str, usize)] = &[
    (" before\t2 turn 3 B code 0 fFA0 \r\n#\n\n \t\n", 1),
    ("before 4294967295 turn 4294967295 A memory 96 00", 1),
    (
        "before 1 B memory 4294967294 00\nbefore 1 B memory 0 0001",
        2,
    ),
    ("before 1 B memory 4294967295 00", 0),
    ("before 1 B memory 4294967294 0000", 0),
    ("before 1 A memory 97 00", 0),
    ("before 1 A memory 96 0000", 0),
    ("before 1 A code 40 00", 0),
];

// Whether a fault file that is read in pieces of at most so many bytes has so many faults; 0 where it is refused so.
fn has_faults(alloc: Global, text: &str, most: u32, wanted: usize) -> bool {
    let Some(mut files) = files_of(alloc, text, most, 0) else {
        return false;
    };
    match read_faults(alloc, &mut files, "T", &SIZES) {
        Ok(faults) => faults.len() == wanted,
        Err(TraceFail::Refused(refusal)) => {
            matches!(refusal.rule, Rule::F3) && refusal.place.line == 1 && wanted == 0
        }
        Err(_) => false,
    }
}

// The number of the first row of `FAULTS` that is not met, counted from 1; 0: there is none.
fn wrong_faults(alloc: Global) -> usize {
    for row in 0..FAULTS.len() {
        let (text, wanted) = FAULTS[row];
        if !has_faults(alloc, text, 0, wanted)
            || !has_faults(alloc, text, 1, wanted)
            || !has_faults(alloc, text, 3, wanted)
        {
            return row + 1;
        }
    }
    0
}

#[test]
fn readers(rt: HostRuntime) {
    no_row(&rt, wrong_line(rt.alloc()));
    no_row(&rt, wrong_trace(rt.alloc()));
    no_row(&rt, wrong_faults(rt.alloc()));
}
