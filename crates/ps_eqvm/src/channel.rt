// Channel B: its code and its cells.

ghost use Rattle.std.specs.Prelude.{◌≡◌, ◌+◌, ◌*◌, IfOk};

use crate::counting::{complement, store_counted};
use crate::layout::{INSTANCE_SIZE, SIGNALS_AT};
use crate::own_sizes::copy_of;
use crate::plain::PlainCells;
use crate::{report, turn};
use ps_base::Memory;
use ps_machine::{CodeImage, ScanMachine, TwinMachine, overwrite, progress_of_byte};
use ps_model::{OutOfRegion, Progress, Region, Report, Scan, Sizes};
use std::alloc::Global;
use std::marker::Model;

/// Channel B: a machine that runs equation code. It has its own copy of the code and its cells, and
/// remembers nothing else of a scan. Contracts see both as bytes as they are stored: each byte of the cells is
/// 255 less its plain value. Every turn reads its row from that code, so bytes that a fault replaced
/// are run as they are. Of its calls only `new` takes memory.
pub struct EquationChannel {
    sizes: Sizes,
    code: Vec<u8>,
    plain: PlainCells,
    // of each instance the signal of its Ready, as `new` found it by the sizes
    readies: Vec<u16>,
}

impl Drop for EquationChannel {
    // One call for whoever owns one, in place of a walk through all that it holds.
    fn drop(self) {
        let EquationChannel {
            sizes: _,
            code: _,
            plain: _,
            readies: _,
        } = self;
    }
}

impl Model for EquationChannel {
    ghost use Rattle.std.specs.Prelude.{◌≡◌, ◌^◌, ◌<◌, length};
    ghost use Rattle.ps_eqvm.specs.Plain.{laid_out, IsSized};
    ghost use Rattle.ps_eqvm.specs.Readies.{AreReadies};
    ghost use Rattle.ps_machine.specs.StoredChannel.{Stored};

    ghost Value = { Stored };

    ghost view = { λ c. record { sizes = c.sizes; code = c.code.items; cells = laid_out c.plain } };

    ghost invariant = { λ c. IsSized c.sizes.signals c.sizes.instances c.plain × (length c.code.items < 2 ^ 32) × AreReadies c.sizes c.readies.items };
}

// How many bytes the cells of an application have.
fn cells_len(sizes: &Sizes) -> u32
    ensures { result ≡ SIGNALS_AT + sizes.now.signals + INSTANCE_SIZE * sizes.now.instances }
{
    let signals = sizes.signals;
    let instances = sizes.instances;
    SIGNALS_AT as u32 + signals as u32 + INSTANCE_SIZE as u32 * instances as u32
}

impl EquationChannel {
    ghost use Rattle.std.specs.Prelude.{◌≡◌, ℕ, ◌+◌, ◌*◌, ◌<◌, ◌≤◌, ◌==◌, IfOk, None, Some, false, is_err, length, nat_lt, true};
    ghost use Rattle.ps_machine.specs.Progressing.{progress_said, is_running};
    ghost use Rattle.ps_eqvm.specs.Bits.{AreBitsOf};
    ghost use Rattle.ps_eqvm.specs.Turn.{turn_b, begin_b, report_b};
    ghost use Rattle.ps_eqvm.specs.Channel.{blank_b, progress_of, bit_cells};
    ghost use Rattle.ps_eqvm.specs.Restoring.{restored_b};
    ghost use Rattle.ps_machine.specs.StoredChannel.{restored_channel, region_of, spoiled};
    ghost use Rattle.ps_machine.specs.Machines.{turned};

    /// A channel with its own copy of the code, for an application of these sizes, with cells of plain
    /// value 0.
    pub fn new(alloc: Global, image: &CodeImage, sizes: &Sizes) -> Result<EquationChannel, Memory>
        ensures { IfOk result (λ c. c ≡ record { sizes = sizes.now; code = image.now; cells = blank_b sizes.now }) }
    {
        let sizes = copy_of(alloc, sizes)?;
        let code = Vec::from_slice(alloc, image.as_slice())?;
        let plain = PlainCells::all_zero(alloc, sizes.signals, sizes.instances)?;
        let readies = report::ready_signals(alloc, &sizes)?;
        Ok(EquationChannel {
            sizes,
            code,
            plain,
            readies,
        })
    }

    /// The channel is as `new` makes it from this image.
    pub fn renew(&mut self, image: &CodeImage)
        requires { length image.now ≡ length self.old.code }
        ensures { self.new ≡ record { sizes = self.old.sizes; code = image.now; cells = blank_b self.old.sizes } }
    {
        self.code.copy_from_slice(image.as_slice());
        self.plain.clear();
    }

    /// Restores the channel with the code of this image, which has the length of the channel's code, from the plain
    /// bytes of the signals and instances of another channel, in which a timer is the time since which the state is
    /// there: that becomes the time that remains of the instance's limit. All times are in ms, and the time of the last
    /// scan is this one. `bytes` is room for work: what it has then is not said.
    pub fn restore(&mut self, image: &CodeImage, limits: &[u32], time: u32, bytes: &mut [u8])
        requires image { length image.now ≡ length self.old.code }
        requires limits { length limits.now ≡ self.old.sizes.instances }
        requires bytes { length bytes.old ≡ self.old.sizes.signals + 16 * self.old.sizes.instances }
        ensures { self.new ≡ restored_channel (restored_b self.old.sizes limits.now time bytes.old) image.now self.old }
    {
        self.renew(image);
        store_counted(bytes, limits, time);
        let mut stored_time = time.to_be_bytes();
        complement(&mut stored_time);
        self.plain.fill(&stored_time, bytes);
    }

    /// The Begin of a scan (profile): the offset and the progress are 0, the time passed is that since
    /// the last scan, and the inputs have the scan's values.
    pub fn begin(&mut self, scan: &Scan)
        requires { length scan.now.ins ≡ self.old.sizes.inputs }
        ensures { self.new ≡ record self.old { cells = begin_b self.old.sizes scan.entry.now.now scan.entry.now.ins self.old.cells } }
    {
        self.plain.sound();
        self.plain.begin(scan.now, scan.ins.as_slice());
    }

    /// What the progress byte says, by its plain value.
    pub fn progress(&self) -> Progress
        ensures { result ≡ progress_said (progress_of self.now.cells) }
    {
        self.plain.sound();
        progress_of_byte(self.plain.progress())
    }

    /// One row, on any bytes. A trap n is marked in the progress byte, and nothing else changes.
    pub fn turn(&mut self)
        requires { progress_said (progress_of self.old.cells) ≡ Progress.Running }
        ensures { self.new ≡ record self.old { cells = turn_b self.old.sizes self.old.code self.old.cells } }
    {
        self.plain.sound();
        turn::turn(
            &mut self.plain,
            &self.code,
            self.sizes.signals,
            self.sizes.instances,
        );
    }

    /// Turns as long as the scan is Running, at most so many. The answer is how many there were: `most`,
    /// or fewer where the scan is then no longer Running.
    pub fn turns(&mut self, most: u32) -> u32
        ensures cells { self.new ≡ record self.old { cells = turned (turn_b self.old.sizes self.old.code) result self.old.cells } }
        ensures running { (j : ℕ) → j < result → progress_said (progress_of (turned (turn_b self.old.sizes self.old.code) j self.old.cells)) ≡ Progress.Running }
        ensures most { result ≤ most }
        ensures stopped { result < most → is_running (progress_said (progress_of self.new.cells)) ≡ false }
    {
        self.plain.sound();
        turn::turns(
            &mut self.plain,
            &self.code,
            self.sizes.signals,
            self.sizes.instances,
            most,
        )
    }

    /// The value words as they are kept: bit i is 1 exactly where the plain byte of work cell i, or
    /// from 48 on of signal i - 48, is 1. There are as many words as these cells need, and the bits
    /// past the last cell are 0.
    pub fn value_words(&self) -> &[u64]
        ensures { AreBitsOf (λ byte. byte == 1) (bit_cells self.now.sizes self.now.cells) result.now }
    {
        self.plain.sound();
        self.plain.value_words()
    }

    /// The odd words as they are kept: bit i is 1 exactly where the plain byte of work cell i, or from
    /// 48 on of signal i - 48, is neither 0 nor 1. There are as many words as these cells need, and the
    /// bits past the last cell are 0.
    pub fn odd_words(&self) -> &[u64]
        ensures { AreBitsOf (nat_lt 1) (bit_cells self.now.sizes self.now.cells) result.now }
    {
        self.plain.sound();
        self.plain.odd_words()
    }

    /// The channel becomes what another one is, of the same sizes and with a code of the same length.
    pub fn copy_from(&mut self, other: &EquationChannel)
        requires sizes { self.old.sizes ≡ other.now.sizes }
        requires code { length self.old.code ≡ length other.now.code }
        ensures { self.new ≡ other.now }
    {
        self.code.copy_from_slice(&other.code);
        self.plain.copy_from(&other.plain);
    }

    /// True only where the channel is what another one is, of the same sizes.
    pub fn is_twin_of(&self, other: &EquationChannel) -> bool
        requires { self.now.sizes ≡ other.now.sizes }
        ensures { result ≡ true → self.now ≡ other.now }
    {
        self.plain.is_twin_of(&other.plain) && self.code == other.code
    }

    /// The length of a region in bytes.
    pub fn region_len(&self, region: Region) -> u32
        ensures { result ≡ length (region_of region self.now) }
    {
        match region {
            Region::Code => self.code.len() as u32,
            Region::Cells => cells_len(&self.sizes),
        }
    }

    /// Replaces bytes of a region, as they are stored. OutOfRegion comes exactly where they would pass
    /// its end, and then nothing changed.
    pub fn spoil(&mut self, region: Region, at: u32, bytes: &[u8]) -> Result<(), OutOfRegion>
        ensures bytes { self.new ≡ spoiled region at bytes.now self.old }
        ensures refused { is_err result ≡ nat_lt (length (region_of region self.old)) (at + length bytes.now) }
    {
        match region {
            Region::Code => overwrite(&mut self.code, at, bytes),
            Region::Cells => {
                let len = cells_len(&self.sizes) as usize;
                self.plain.overwrite(len, at, bytes)
            }
        }
    }

    /// True exactly where the plain byte of each output, Ready and Error is 0 or 1, and then `into` is
    /// the report that the cells hold. False leaves `into` unchanged.
    pub fn report_into(&self, into: &mut Report) -> bool
        requires outs { length into.old.outs ≡ self.now.sizes.outputs }
        requires diags { length into.old.diags ≡ self.now.sizes.instances }
        ensures report { result ≡ true → report_b self.now.sizes self.now.cells ≡ Some into.new }
        ensures none { result ≡ false → report_b self.now.sizes self.now.cells ≡ None }
        ensures kept { result ≡ false → into.new ≡ into.old }
        ensures sized { (length into.new.outs ≡ length into.old.outs) × (length into.new.diags ≡ length into.old.diags) }
    {
        self.plain.sound();
        if !report::has_report(&self.plain, &self.sizes, &self.readies) {
            return false;
        }
        report::write_outputs(&self.plain, &self.sizes, &mut into.outs);
        report::write_diags(&self.plain, &self.sizes, &self.readies, &mut into.diags);
        true
    }
}

impl ScanMachine for EquationChannel {
    ghost use Rattle.ps_eqvm.specs.Channel.{workings_b};
    ghost use Rattle.ps_eqvm.specs.Restoring.{restored_b};

    ghost stored = { λ channel. channel };

    ghost workings = { workings_b };

    ghost restored = { restored_b };

    fn new(alloc: Global, image: &CodeImage, sizes: &Sizes) -> Result<EquationChannel, Memory> {
        EquationChannel::new(alloc, image, sizes)
    }

    fn renew(&mut self, image: &CodeImage) {
        self.renew(image);
    }

    fn restore(&mut self, image: &CodeImage, limits: &[u32], time: u32, bytes: &mut [u8]) {
        self.restore(image, limits, time, bytes);
    }

    fn begin(&mut self, scan: &Scan) {
        self.begin(scan);
    }

    fn progress(&self) -> Progress {
        self.progress()
    }

    fn turn(&mut self) {
        self.turn();
    }

    fn turns(&mut self, most: u32) -> u32 {
        self.turns(most)
    }

    fn report_into(&self, into: &mut Report) -> bool {
        self.report_into(into)
    }

    fn region_len(&self, region: Region) -> u32 {
        self.region_len(region)
    }

    fn spoil(&mut self, region: Region, at: u32, bytes: &[u8]) -> Result<(), OutOfRegion> {
        self.spoil(region, at, bytes)
    }
}

impl TwinMachine for EquationChannel {
    fn copy_from(&mut self, other: &EquationChannel) {
        self.copy_from(other);
    }

    fn is_twin_of(&self, other: &EquationChannel) -> bool {
        self.is_twin_of(other)
    }
}
