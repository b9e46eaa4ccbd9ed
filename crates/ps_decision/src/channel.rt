// Channel C: its code and its cells.

ghost use Rattle.std.specs.Prelude.{◌≡◌, ◌+◌, ◌*◌};

use crate::cells::{begin, progress};
use crate::layout::{INSTANCE_SIZE, SIGNALS_AT, TIME_AT};
use crate::report::read_report;
use crate::turn::{turn, turns};
use ps_base::Memory;
use ps_machine::{CodeImage, Frame, ScanMachine};
use ps_model::{OutOfRegion, Progress, Region, Report, Scan, Sizes};
use std::alloc::Global;
use std::marker::Model;

/// Channel C: a machine that runs decision code (profile). It has its own copy of the code and its cells, and
/// remembers nothing else. Every turn reads its row from that code, so bytes that a fault replaced
/// are run as they are. Of its calls only `new` takes memory.
pub struct DecisionChannel {
    frame: Frame,
}

impl Drop for DecisionChannel {
    // One call for whoever owns one, in place of a walk through all that it holds.
    fn drop(self) {
        let DecisionChannel { frame: _ } = self;
    }
}

impl Model for DecisionChannel {
    ghost use Rattle.std.specs.Prelude.{◌≡◌, ◌+◌, ◌*◌, ◌^◌, ◌<◌, length};
    ghost use Rattle.ps_machine.specs.Frames.{channel_in};
    ghost use Rattle.ps_machine.specs.StoredChannel.{Stored};
    ghost use Rattle.ps_decision.specs.declared.layout.TheConstants.{INSTANCE_SIZE, SIGNALS_AT};

    ghost Value = { Stored };

    ghost view = { λ c. channel_in c.frame };

    ghost invariant = { λ c. (length c.frame.cells.items ≡ SIGNALS_AT + c.frame.sizes.signals + INSTANCE_SIZE * c.frame.sizes.instances)
        × (length c.frame.cells.items < 2 ^ 32) × (length c.frame.code.items < 2 ^ 32) };
}

impl DecisionChannel {
    ghost use Rattle.std.specs.Prelude.{◌≡◌, ℕ, ◌+◌, ◌*◌, ◌<◌, ◌≤◌, length, slice_index, true, false, IfOk, Some, None, is_err, nat_lt};
    ghost use Rattle.ps_machine.specs.Machines.{turned};
    ghost use Rattle.ps_machine.specs.Progressing.{progress_said, is_running};
    ghost use Rattle.ps_machine.specs.StoredChannel.{restored_channel, region_of, spoiled};
    ghost use Rattle.ps_decision.specs.Cells.{progress_of};
    ghost use Rattle.ps_decision.specs.Turn.{begin_c, turn_c, report_c};
    ghost use Rattle.ps_decision.specs.Channel.{blank_c};
    ghost use Rattle.ps_decision.specs.Restoring.{carried_c, restored_c};

    /// A channel with its own copy of the code, for an application of these sizes, with cells all 0.
    pub fn new(alloc: Global, image: &CodeImage, sizes: &Sizes) -> Result<DecisionChannel, Memory>
        ensures { IfOk result (λ c. c ≡ record { sizes = sizes.now; code = image.now; cells = blank_c sizes.now }) }
    {
        let frame = Frame::new(alloc, image, sizes, SIGNALS_AT)?;
        Ok(DecisionChannel { frame })
    }

    /// Makes the channel as `new` makes it from this image, which has the length of the channel's code.
    pub fn renew(&mut self, image: &CodeImage)
        requires { length image.now ≡ length self.old.code }
        ensures { self.new ≡ record { sizes = self.old.sizes; code = image.now; cells = blank_c self.old.sizes } }
    {
        self.frame.renew(image);
    }

    /// Restores the channel with the code of this image, which has the length of the channel's code: all cells are 0
    /// but the time of the last scan in ms, and the signals and instances, whose bytes are these.
    pub fn restore(&mut self, image: &CodeImage, time: u32, bytes: &[u8])
        requires image { length image.now ≡ length self.old.code }
        requires bytes { length bytes.now ≡ self.old.sizes.signals + 16 * self.old.sizes.instances }
        ensures { self.new ≡ restored_channel (restored_c self.old.sizes time bytes.now) image.now self.old }
    {
        self.frame
            .restore(image, TIME_AT, &time.to_be_bytes(), SIGNALS_AT, bytes);
    }

    /// Reads the bytes of the signals and then of the instances, as they stand in the cells.
    pub fn carry_into(&self, bytes: &mut [u8])
        requires { length bytes.old ≡ self.now.sizes.signals + 16 * self.now.sizes.instances }
        ensures { bytes.new ≡ carried_c self.now.sizes self.now.cells }
    {
        self.frame.carry_into(SIGNALS_AT, bytes);
    }

    /// The Begin of a scan, which has one value for each input: offset and progress are 0, and the
    /// time and the inputs are the scan's. All else stays.
    pub fn begin(&mut self, scan: &Scan)
        requires { length scan.now.ins ≡ self.old.sizes.inputs }
        ensures { self.new ≡ record self.old { cells = begin_c scan.entry.now.now scan.entry.now.ins self.old.cells } }
    {
        begin(&mut self.frame.cells, scan.now, scan.ins.as_slice());
    }

    /// What the progress byte says: Running for 0, Done for 1, Trapped with the value less 1 for 2 to 8,
    /// and Trapped(0) for 9 to 255.
    pub fn progress(&self) -> Progress
        ensures { result ≡ progress_said (progress_of self.now.cells) }
    {
        progress(&self.frame.cells)
    }

    /// One row, on any bytes. A trap is marked in the progress byte, and nothing else changes.
    pub fn turn(&mut self)
        requires { progress_said (progress_of self.old.cells) ≡ Progress.Running }
        ensures { self.new ≡ record self.old { cells = turn_c self.old.sizes self.old.code self.old.cells } }
    {
        turn(
            &mut self.frame.cells,
            &self.frame.code,
            self.frame.sizes.signals,
            self.frame.sizes.instances,
        );
    }

    /// Turns as long as the scan is Running, at most so many. The answer is how many there were: `most`,
    /// or fewer where the scan is then no longer Running.
    #[tactic(auto, using(ps_machine::proofs::Progressing::zero_runs, ps_machine::proofs::Progressing::other_ends))]
    pub fn turns(&mut self, most: u32) -> u32
        ensures cells { self.new ≡ record self.old { cells = turned (turn_c self.old.sizes self.old.code) result self.old.cells } }
        ensures running { (j : ℕ) → j < result → progress_said (progress_of (turned (turn_c self.old.sizes self.old.code) j self.old.cells)) ≡ Progress.Running }
        ensures most { result ≤ most }
        ensures stopped { result < most → is_running (progress_said (progress_of self.new.cells)) ≡ false }
    {
        turns(
            &mut self.frame.cells,
            &self.frame.code,
            self.frame.sizes.signals,
            self.frame.sizes.instances,
            most,
        )
    }

    /// Writes the report that the cells hold into a report of the application's sizes. False where an output,
    /// Ready or Error byte is neither 0 nor 1, and then the report is as before.
    pub fn report_into(&self, into: &mut Report) -> bool
        requires outs { length into.old.outs ≡ self.now.sizes.outputs }
        requires diags { length into.old.diags ≡ self.now.sizes.instances }
        ensures report { result ≡ true → report_c self.now.sizes self.now.cells ≡ Some into.new }
        ensures none { result ≡ false → report_c self.now.sizes self.now.cells ≡ None }
        ensures kept { result ≡ false → into.new ≡ into.old }
        ensures sized { (length into.new.outs ≡ length into.old.outs) × (length into.new.diags ≡ length into.old.diags) }
    {
        read_report(&self.frame.cells, &self.frame.sizes, into)
    }

    /// The length of a region in bytes.
    pub fn region_len(&self, region: Region) -> u32
        ensures { result ≡ length (region_of region self.now) }
    {
        self.frame.region_len(region)
    }

    /// Replaces bytes of a region. OutOfRegion comes exactly where they would pass its end, and then nothing
    /// changed.
    pub fn spoil(&mut self, region: Region, at: u32, bytes: &[u8]) -> Result<(), OutOfRegion>
        ensures bytes { self.new ≡ spoiled region at bytes.now self.old }
        ensures refused { is_err result ≡ nat_lt (length (region_of region self.old)) (at + length bytes.now) }
    {
        self.frame.spoil(region, at, bytes)
    }

    /// A byte of the cells.
    pub fn cell(&self, at: u32) -> u8
        requires { at < length self.now.cells }
        ensures { result ≡ slice_index self.now.cells at }
    {
        self.frame.cells[at as usize]
    }
}

impl ScanMachine for DecisionChannel {
    ghost use Rattle.ps_decision.specs.Channel.{workings_c};
    ghost use Rattle.ps_decision.specs.Restoring.{restored_c};

    ghost stored = { λ channel. channel };

    ghost workings = { workings_c };

    ghost restored = { λ sizes limits time bytes. restored_c sizes time bytes };

    fn new(alloc: Global, image: &CodeImage, sizes: &Sizes) -> Result<DecisionChannel, Memory> {
        DecisionChannel::new(alloc, image, sizes)
    }

    fn renew(&mut self, image: &CodeImage) {
        self.renew(image);
    }

    fn restore(&mut self, image: &CodeImage, _limits: &[u32], time: u32, bytes: &mut [u8]) {
        self.restore(image, time, bytes);
    }

    fn begin(&mut self, scan: &Scan) {
        self.begin(scan);
    }

    fn progress(&self) -> Progress {
        self.progress()
    }

    fn turn(&mut self) {
        self.turn();
    }

    fn turns(&mut self, most: u32) -> u32 {
        self.turns(most)
    }

    fn report_into(&self, into: &mut Report) -> bool {
        self.report_into(into)
    }

    fn region_len(&self, region: Region) -> u32 {
        self.region_len(region)
    }

    fn spoil(&mut self, region: Region, at: u32, bytes: &[u8]) -> Result<(), OutOfRegion> {
        self.spoil(region, at, bytes)
    }
}
