//! Where channel B's cells stand (profile): the numbers of a scan, the work cells, a byte a signal, and
//! the bytes of each instance.

/// Where the offset of the next row stands, in four bytes.
pub const OFFSET_AT: usize = 0;

/// Where the progress byte stands.
pub const PROGRESS_AT: usize = 4;

/// Where the time of the last scan that began stands, in four bytes.
pub const LAST_AT: usize = 5;

/// Where the time passed in this scan stands, in four bytes.
pub const PASSED_AT: usize = 9;

/// Where the work cells begin, a byte each.
pub const WORK_AT: usize = 13;

/// How many work cells there are.
pub const WORK_CELLS: u16 = 48;

/// Where the signals begin, a byte each. The bytes of each instance follow them.
pub const SIGNALS_AT: usize = 61;

/// How many bytes an instance has.
pub const INSTANCE_SIZE: usize = 16;
