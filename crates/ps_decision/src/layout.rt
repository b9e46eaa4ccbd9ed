// Where channel C's cells have what, how long their parts are, and how operands name them.

/// The progress of the scan.
pub const PROGRESS_AT: usize = 4;

/// The time of the scan, in four bytes.
pub const TIME_AT: usize = 5;

/// The pin cells.
pub const PINS_AT: usize = 9;

/// How many pin cells there are.
pub const PIN_CELLS: u16 = 13;

/// One byte for each signal; after them stand the bytes of the instances.
pub const SIGNALS_AT: usize = 22;

/// How many bytes each instance has.
pub const INSTANCE_SIZE: usize = 16;

/// The operand that names pin cell 0; the following numbers name those after it.
pub const FIRST_PIN: u16 = 0xF000;
