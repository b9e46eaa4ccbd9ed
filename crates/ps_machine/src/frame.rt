// The frame of a channel whose cells are kept byte by byte.

use crate::bytes::{overwrite, replace};
use crate::image::CodeImage;
use ps_base::Memory;
use ps_model::{OutOfRegion, Region, Sizes};
use std::alloc::Global;

/// What a channel has whose cells are kept byte by byte, as those of channels A and C are: the sizes of its
/// application, its own copy of the code, and its cells. In these the bytes of the signals begin at a place, and the
/// sixteen bytes of each instance stand after them. What the bytes before that place mean, and what a turn does, is
/// the channel's own.
pub struct Frame {
    /// The sizes of the application.
    pub sizes: Sizes,
    /// The code.
    pub code: Vec<u8>,
    /// The cells.
    pub cells: Vec<u8>,
}

impl Drop for Frame {
    // One call for whoever owns one, in place of a walk through all that it holds.
    fn drop(self) {
        let Frame {
            sizes: _,
            code: _,
            cells: _,
        } = self;
    }
}

impl Frame {
    ghost use Rattle.std.specs.Prelude.{◌≡◌, ◌+◌, ◌*◌, ◌<◌, ◌≤◌, ◌^◌, IfOk, is_err, length, nat_lt, replicate, true};
    ghost use Rattle.ps_machine.specs.Carrying.{carried, filled};
    ghost use Rattle.ps_machine.specs.Frames.{channel_in};
    ghost use Rattle.ps_machine.specs.StoredChannel.{region_of, restored_channel, spoiled};

    /// A frame with its own copy of the code, for an application of these sizes, whose cells are all 0. The bytes of
    /// the signals begin at `signals_at`.
    pub fn new(
        alloc: Global,
        image: &CodeImage,
        sizes: &Sizes,
        signals_at: usize,
    ) -> Result<Frame, Memory>
        requires { signals_at < 2 ^ 16 }
        ensures made { IfOk result (λ f. channel_in f ≡ record {
          sizes = sizes.now;
          code = image.now;
          cells = replicate (signals_at + sizes.now.signals + 16 * sizes.now.instances) 0;
        }) }
        ensures sized { IfOk result (λ f.
            length f.cells.items ≡ signals_at + f.sizes.signals + 16 * f.sizes.instances) }
        ensures short { IfOk result (λ f. (length f.cells.items < 2 ^ 32) × (length f.code.items < 2 ^ 32)) }
    {
        let sizes = sizes.copy(alloc)?;
        let code = Vec::from_slice(alloc, image.as_slice())?;
        let len = signals_at + sizes.signals as usize + 16 * sizes.instances as usize;
        let cells = vec![in alloc; 0; len]?;
        Ok(Frame { sizes, code, cells })
    }

    /// The code becomes that of this image, which has the length of the code, and all cells become 0.
    pub fn renew(&mut self, image: &CodeImage)
        requires { length image.now ≡ length (channel_in self.old).code }
        ensures { channel_in self.new ≡
            restored_channel (replicate (length (channel_in self.old).cells) 0) image.now (channel_in self.old) }
    {
        self.code.copy_from_slice(image.as_slice());
        self.cells.fill(0);
    }

    /// The same, and then the cells have these bytes of a time at `time_at`, and these of signals and instances,
    /// which go up to the end, from `signals_at` on.
    pub fn restore(
        &mut self,
        image: &CodeImage,
        time_at: usize,
        time: &[u8],
        signals_at: usize,
        bytes: &[u8],
    )
        requires image { length image.now ≡ length (channel_in self.old).code }
        requires time { time_at + length time.now ≤ signals_at }
        requires bytes { signals_at + length bytes.now ≡ length (channel_in self.old).cells }
        ensures cells { channel_in self.new ≡ restored_channel
            (filled (replicate (length (channel_in self.old).cells) 0) time_at time.now signals_at bytes.now)
            image.now (channel_in self.old) }
        ensures sized { length (channel_in self.new).cells ≡ length (channel_in self.old).cells }
    {
        self.renew(image);
        replace(&mut self.cells, time_at, time);
        replace(&mut self.cells, signals_at, bytes);
    }

    /// Reads the bytes of the signals and then of the instances, which begin at `signals_at` and go up to the end.
    pub fn carry_into(&self, signals_at: usize, bytes: &mut [u8])
        requires size { length bytes.old ≡ self.now.sizes.signals + 16 * self.now.sizes.instances }
        requires room { signals_at + length bytes.old ≡ length (channel_in self.now).cells }
        ensures { bytes.new ≡ carried self.now.sizes signals_at (channel_in self.now).cells }
    {
        bytes.copy_from_slice(&self.cells[signals_at..]);
    }

    /// The code and the cells become those of another frame, which has the same sizes, and code and cells of the same
    /// lengths.
    pub fn copy_from(&mut self, other: &Frame)
        requires sizes { self.old.sizes ≡ other.now.sizes }
        requires code { length (channel_in self.old).code ≡ length (channel_in other.now).code }
        requires cells { length (channel_in self.old).cells ≡ length (channel_in other.now).cells }
        ensures { channel_in self.new ≡ channel_in other.now }
    {
        self.code.copy_from_slice(&other.code);
        self.cells.copy_from_slice(&other.cells);
    }

    /// Whether code and cells are those of another frame, which has the same sizes.
    pub fn is_twin_of(&self, other: &Frame) -> bool
        requires { self.now.sizes ≡ other.now.sizes }
        ensures { result ≡ true → channel_in self.now ≡ channel_in other.now }
    {
        self.cells == other.cells && self.code == other.code
    }

    /// The length of a region in bytes.
    pub fn region_len(&self, region: Region) -> u32
        requires code { length (channel_in self.now).code < 2 ^ 32 }
        requires cells { length (channel_in self.now).cells < 2 ^ 32 }
        ensures { result ≡ length (region_of region (channel_in self.now)) }
    {
        match region {
            Region::Code => self.code.len() as u32,
            Region::Cells => self.cells.len() as u32,
        }
    }

    /// Replaces bytes of a region. OutOfRegion comes exactly where they would pass its end, and then nothing changed.
    pub fn spoil(&mut self, region: Region, at: u32, bytes: &[u8]) -> Result<(), OutOfRegion>
        requires code { length (channel_in self.old).code < 2 ^ 32 }
        requires cells { length (channel_in self.old).cells < 2 ^ 32 }
        ensures bytes { channel_in self.new ≡ spoiled region at bytes.now (channel_in self.old) }
        ensures refused { is_err result ≡
            nat_lt (length (region_of region (channel_in self.old))) (at + length bytes.now) }
    {
        match region {
            Region::Code => overwrite(&mut self.code, at, bytes),
            Region::Cells => overwrite(&mut self.cells, at, bytes),
        }
    }
}
