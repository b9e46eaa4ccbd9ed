// Words of the channels and of the world over them.

use ps_base::Bytes;

/// A channel of the world of two.
#[derive(Clone, Copy, PartialEq)]
pub enum Channel {
    /// Stack code.
    A,
    /// Equation code.
    B,
}

/// A region of a channel's bytes.
#[derive(Clone, Copy, PartialEq)]
pub enum Region {
    /// The code image.
    Code,
    /// The memory cells.
    Cells,
}

/// Why a scan is tripped.
#[derive(Clone, Copy, PartialEq)]
pub enum Cause {
    /// The reports differ, first in the field of this number.
    Differ(u16),
    /// A channel did not end within its budget.
    Stuck(Channel),
    /// A channel was trapped, with the trap's number.
    Trap(Channel, u8),
    /// The cells of a channel hold no report.
    NoReport(Channel),
}

/// The answer of a comparison.
#[derive(Clone, Copy, PartialEq)]
pub enum Verdict {
    /// The report is released.
    Released,
    /// The world is tripped by this comparison.
    Tripped(Cause),
    /// The world was tripped before.
    Down,
}

/// Where a channel stands in a scan.
#[derive(Clone, Copy, PartialEq)]
pub enum Progress {
    /// It runs.
    Running,
    /// It is done.
    Done,
    /// A trap with this number ended it.
    Trapped(u8),
}

/// The bytes that were to be replaced do not lie in the region.
#[derive(Clone, Copy)]
pub struct OutOfRegion;

/// The lengths of the code and the cells of both channels, in bytes.
#[derive(Clone, Copy)]
pub struct ImageSizes {
    /// Of channel A's code.
    pub a_code: u32,
    /// Of channel A's cells.
    pub a_cells: u32,
    /// Of channel B's code.
    pub b_code: u32,
    /// Of channel B's cells.
    pub b_cells: u32,
}

/// A line of a fault file: at one moment of a run some bytes of a channel are replaced.
#[derive(Drop)]
pub struct Fault {
    /// In this scan, counted from 1.
    pub scan: u32,
    /// Before this turn of the scan; 0 means before the scan begins.
    pub turn: u32,
    /// In this channel.
    pub channel: Channel,
    /// In this region of it.
    pub region: Region,
    /// From this byte on, counted from 0.
    pub at: u32,
    /// What stands there then.
    pub bytes: Bytes,
}
