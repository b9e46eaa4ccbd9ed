// What a line asks for, before it is known what stands before it.

use crate::case::Window;
use crate::lists::Checks;
use ps_model::Fault;

// What the words of a line ask for, beside its settings. Times are as the line has them.
#[derive(Drop)]
pub(crate) enum Deed {
    // nothing
    Set,
    // a scan at this time
    At(u32),
    // a scan so much after the scan before
    After(u32),
    // so many scans, a step apart
    Times(u32, u32),
    // scans a step apart, and one so much after the scan before
    For(u32, u32),
    // scans a step apart, and one at this time
    Until(u32, u32),
    Restart,
    // a fault of the next scan, whose number is not yet known: it is 0
    Fault(Fault),
    Expect(Window, Checks),
}
