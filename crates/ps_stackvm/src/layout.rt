// Where channel A's cells have what, and how long their parts are.

/// The height of the stack.
pub const HEIGHT_AT: usize = 4;

/// The progress of the scan.
pub const PROGRESS_AT: usize = 5;

/// The time of the scan, in four bytes.
pub const TIME_AT: usize = 6;

/// The stack.
pub const STACK_AT: usize = 10;

/// How many bytes the stack has.
pub const STACK_SIZE: u8 = 64;

/// One byte for each signal; after them stand the bytes of the instances.
pub const SIGNALS_AT: usize = 74;

/// How many bytes each instance has.
pub const INSTANCE_SIZE: usize = 16;
