// The limits of a log.

/// The longest line of a log, in bytes, without its line feed.
pub const LONGEST_LOG_LINE: u32 = 1_048_576;
/// The largest log, in bytes: with it each line has a number of 32 bits.
pub const LARGEST_LOG: u32 = 4_294_967_294;
