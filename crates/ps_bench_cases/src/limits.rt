// The limits of a case file.

/// The longest line of a case file, in bytes, without its line feed.
pub const LONGEST_CASE_LINE: u32 = 65_536;
/// The largest case file, in bytes: as much as is counted in 32 bits.
pub const LARGEST_CASE_FILE: u32 = 4_294_967_295;
/// The longest name of a case, in bytes.
pub const LONGEST_CASE_NAME: u32 = 200;
/// The most lines of a case file.
pub const MOST_CASE_LINES: u32 = 100_000;
/// The most cases of a case file.
pub const MOST_CASES: u32 = 1_000;
/// The most faults of a case.
pub const MOST_CASE_FAULTS: u32 = 1_000;
/// The most scans of all cases of a case file together.
pub const MOST_CASE_SCANS: u32 = 1_000_000;
