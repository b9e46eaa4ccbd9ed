// The limits of the product. Every crate takes them from here.

/// The most inputs of an application, and the most outputs.
pub const MOST_INPUTS: u16 = 512;
/// The most outputs of an application.
pub const MOST_OUTPUTS: u16 = 512;
/// The most signals of an application, pin outputs among them.
pub const MOST_SIGNALS: u16 = 4_000;
/// The most instances of an application.
pub const MOST_INSTANCES: u16 = 400;
/// The most expression nodes of an application.
pub const MOST_NODES: u32 = 20_000;
/// The most groups of a text that are open at one place.
pub const MOST_GROUPS: u32 = 16;
/// The most And and Or of an application's expression that are nested: each of 17 levels of sums gives at most one of
/// each.
pub const MOST_NESTED: u32 = 34;
/// The longest name of a text, in bytes.
pub const LONGEST_NAME: u32 = 64;
/// The largest text of an application, in bytes.
pub const LARGEST_SOURCE: u32 = 1_048_576;
/// The most tokens of a text.
pub const MOST_TOKENS: u32 = 1_048_576;
/// The longest line of a trace, in bytes, without its line feed.
pub const LONGEST_TRACE_LINE: u32 = 65_536;
/// The largest trace, in bytes.
pub const LARGEST_TRACE: u32 = 67_108_864;
/// The most lines of a certificate's text.
pub const MOST_CERTIFICATE_LINES: u32 = 40_000;
/// The largest text of a certificate, in bytes.
pub const LARGEST_CERTIFICATE: u32 = 1_048_576;
/// The most lines of a fault file.
pub const MOST_FAULT_LINES: u32 = 1_000;
/// The longest line of a fault file, in bytes.
pub const LONGEST_FAULT_LINE: u32 = 600;
/// The most bytes that one fault replaces.
pub const MOST_FAULT_BYTES: u32 = 256;
/// The latest time of a scan and the largest TIME literal, in ms.
pub const LARGEST_TIME: u32 = 4_294_967_295;
