// The limits of texts with function blocks.

/// The most function blocks of a text.
pub const MOST_BLOCKS: u32 = 64;
/// The most declared names of a flat source.
pub const MOST_FLAT_NAMES: u32 = 4_000;
/// The most statements of a flat source.
pub const MOST_FLAT_STATEMENTS: u32 = 20_000;
