// How a case stands after some of its lines, and what the next case begins with.

use ps_model::Channel;

// How a case stands after some of its lines. Times are in ms within the case.
#[derive(Clone, Copy)]
pub(crate) struct Stand {
    // when the case begins in the expanded trace
    pub(crate) base: u32,
    // from when on `at` and `until` count
    pub(crate) origin: u32,
    // of the last scan, 0 where there is none
    pub(crate) time: u32,
    // how many scans the case has, and the file so far
    pub(crate) scans: u32,
    pub(crate) made: u32,
    // how many faults the case has, and whom the first one strikes
    pub(crate) faults: u32,
    pub(crate) struck: Option<Channel>,
    // the turn of the last fault of the next scan, and the line of the first one; 0: there is none
    pub(crate) turn: u32,
    pub(crate) waiting: u32,
}

// What the next case begins with: how many cases stand before it, when it begins in the expanded trace in ms, how many
// scans
// these have made, and how a case stands after the lines before the first.
#[derive(Clone, Copy)]
pub(crate) struct Coming {
    pub(crate) cases: usize,
    pub(crate) base: u64,
    pub(crate) made: u32,
    pub(crate) start: Stand,
}
