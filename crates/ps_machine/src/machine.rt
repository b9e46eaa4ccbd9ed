// The trait of a machine.

ghost use Rattle.std.specs.Prelude.{◌≡◌, ℕ, List, ◌+◌, ◌*◌, ◌<◌, ◌≤◌, false, true, IfOk, Some, None, is_err, length};
ghost use Rattle.std.specs.Prelude.{nat_lt};
ghost use Rattle.ps_model.specs.declared.sizes.Sizes.{Sizes};
ghost use Rattle.ps_machine.specs.Machines.{Workings, turned};
ghost use Rattle.ps_machine.specs.Progressing.{is_running};
ghost use Rattle.ps_machine.specs.StoredChannel.{Stored, as_compiled, restored_channel, region_of, spoiled};

use crate::image::CodeImage;
use ps_base::Memory;
use ps_model::{OutOfRegion, Progress, Region, Report, Scan, Sizes};
use std::alloc::Global;

/// A machine of a channel: it has its own copy of the code and its cells, and remembers nothing else.
/// Every turn reads the code anew, so bytes that a fault replaced are run as they are. Of the calls
/// only `new` takes memory.
pub trait ScanMachine: Drop {
    /// The sizes, the code and the cells of a channel.
    ghost stored: { Self → Stored };

    /// How the cells change and what they say, for an application of these sizes.
    ghost workings: { Sizes → Workings };

    /// The cells of a channel that is restored, by the limits of the instances and the time of the last scan in ms,
    /// from the bytes of the signals and instances of another channel.
    ghost restored: { Sizes → (limits : List ℕ) → (time : ℕ) → (bytes : List ℕ) → List ℕ };

    /// A channel with its own copy of the code, for an application of these sizes, with blank cells.
    fn new(alloc: Global, image: &CodeImage, sizes: &Sizes) -> Result<Self, Memory>
        ensures { IfOk result (λ channel. stored channel ≡ as_compiled (workings sizes.now) sizes.now image.now) };

    /// The channel is as `new` makes it from this image, which has the length of the channel's code.
    fn renew(&mut self, image: &CodeImage)
        requires { length image.now ≡ length (stored self.old).code }
        ensures { stored self.new ≡ as_compiled (workings (stored self.old).sizes) (stored self.old).sizes image.now };

    /// The channel is restored with the code of this image, which has the length of the channel's code, from the bytes
    /// of the signals and instances of another channel, which are plain and in which a timer is the time since which
    /// the state is there. `bytes` is room for work: what it has then is not said.
    fn restore(&mut self, image: &CodeImage, limits: &[u32], time: u32, bytes: &mut [u8])
        requires image { length image.now ≡ length (stored self.old).code }
        requires limits { length limits.now ≡ (stored self.old).sizes.instances }
        requires bytes { length bytes.old ≡ (stored self.old).sizes.signals + 16 * (stored self.old).sizes.instances }
        ensures { stored self.new ≡ restored_channel (restored (stored self.old).sizes limits.now time bytes.old) image.now (stored self.old) };

    /// The Begin of a scan, which has one value for each input.
    fn begin(&mut self, scan: &Scan)
        requires { length scan.now.ins ≡ (stored self.old).sizes.inputs }
        ensures { stored self.new ≡ record (stored self.old) { cells = (workings (stored self.old).sizes).begin scan.entry.now.now scan.entry.now.ins (stored self.old).cells } };

    /// What the cells say of the scan.
    fn progress(&self) -> Progress
        ensures { result ≡ (workings (stored self.now).sizes).progress (stored self.now).cells };

    /// One turn, on any bytes, where the scan is Running.
    fn turn(&mut self)
        requires { (workings (stored self.old).sizes).progress (stored self.old).cells ≡ Progress.Running }
        ensures { stored self.new ≡ record (stored self.old) { cells = (workings (stored self.old).sizes).turn (stored self.old).code (stored self.old).cells } };

    /// Turns as long as the scan is Running, at most so many. The answer is how many there were: `most`,
    /// or fewer where the scan is then no longer Running.
    fn turns(&mut self, most: u32) -> u32
        ensures cells { stored self.new ≡ record (stored self.old) { cells = turned ((workings (stored self.old).sizes).turn (stored self.old).code) result (stored self.old).cells } }
        ensures running { (j : ℕ) → j < result → (workings (stored self.old).sizes).progress (turned ((workings (stored self.old).sizes).turn (stored self.old).code) j (stored self.old).cells) ≡ Progress.Running }
        ensures most { result ≤ most }
        ensures stopped { result < most → is_running ((workings (stored self.new).sizes).progress (stored self.new).cells) ≡ false };

    /// Writes the report that the cells hold into a report of the application's sizes. False where an
    /// output, Ready or Error byte is neither 0 nor 1, and then the report is as before.
    fn report_into(&self, into: &mut Report) -> bool
        requires outs { length into.old.outs ≡ (stored self.now).sizes.outputs }
        requires diags { length into.old.diags ≡ (stored self.now).sizes.instances }
        ensures report { result ≡ true → (workings (stored self.now).sizes).report (stored self.now).cells ≡ Some into.new }
        ensures none { result ≡ false → (workings (stored self.now).sizes).report (stored self.now).cells ≡ None }
        ensures kept { result ≡ false → into.new ≡ into.old }
        ensures sized { (length into.new.outs ≡ length into.old.outs) × (length into.new.diags ≡ length into.old.diags) };

    /// The length of a region in bytes.
    fn region_len(&self, region: Region) -> u32
        ensures { result ≡ length (region_of region (stored self.now)) };

    /// Replaces bytes of a region, as they are stored. OutOfRegion comes exactly where they would pass
    /// its end, and then nothing changed.
    fn spoil(&mut self, region: Region, at: u32, bytes: &[u8]) -> Result<(), OutOfRegion>
        ensures bytes { stored self.new ≡ spoiled region at bytes.now (stored self.old) }
        ensures refused { is_err result ≡ nat_lt (length (region_of region (stored self.old))) (at + length bytes.now) };
}

/// A machine that can become what another one is, and be compared with it. Both are of one application: their sizes are
/// the same, and their codes have one length. Neither call takes memory.
pub trait TwinMachine: ScanMachine {
    /// The channel becomes what the other one is.
    fn copy_from(&mut self, other: &Self)
        requires sizes { (Self.stored self.old).sizes ≡ (Self.stored other.now).sizes }
        requires code { length (Self.stored self.old).code ≡ length (Self.stored other.now).code }
        ensures { Self.stored self.new ≡ Self.stored other.now };

    /// True only where the channel is what the other one is.
    fn is_twin_of(&self, other: &Self) -> bool
        requires sizes { (Self.stored self.now).sizes ≡ (Self.stored other.now).sizes }
        ensures { result ≡ true → Self.stored self.now ≡ Self.stored other.now };
}
