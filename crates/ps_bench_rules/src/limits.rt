// The limits of a rules file.

/// The longest line of a rules file, in bytes, without its line feed.
pub const LONGEST_RULES_LINE: u32 = 65_536;
/// The largest rules file, in bytes: as much as is counted in 32 bits.
pub const LARGEST_RULES_FILE: u32 = 4_294_967_295;
/// The most lines of a rules file.
pub const MOST_RULES_LINES: u32 = 100_000;
/// The most rules of a rules file.
pub const MOST_RULES: u32 = 1_000;
/// The longest name of a rule, in bytes.
pub const LONGEST_RULE_NAME: u32 = 200;
/// How far apart scans come at most, in ms.
pub const LONGEST_PACE: u32 = 60_000;
/// How far apart scans come where a file does not say it, in ms.
pub const USUAL_PACE: u32 = 10;
