// The sixteen bytes of each instance.

ghost use Rattle.std.specs.Prelude.{◌≡◌, length, replicate};

use crate::kept::{read, store};
use crate::layout::INSTANCE_SIZE;
use ps_base::Memory;
use ps_rows::CountedBlock;
use std::alloc::Global;
use std::marker::Model;

/// Sixteen bytes for each instance, one instance after the other, which contracts see as the list of
/// their plain values. They are kept as they are stored: each is 255 less its plain value.
#[derive(Drop)]
pub struct InstanceBytes {
    stored: Vec<u8>,
}

impl Model for InstanceBytes {
    ghost use Rattle.std.specs.Prelude.{ℕ, List};
    ghost use Rattle.ps_eqvm.specs.Plain.{complement};

    ghost Value = { List ℕ };

    ghost view = { λ b. complement b.stored.items };
}

impl InstanceBytes {
    ghost use Rattle.std.specs.Prelude.{◌≡◌, ℕ, ◌+◌, ◌*◌, ◌<◌, ◌≤◌, ◌^◌, IfOk, IfSome, IfNone, length, replicate, slice_index, slice_set, true};
    ghost use Rattle.ps_model.specs.Stored.{stored};
    ghost use Rattle.ps_rows.specs.Counted.{kept_of};
    ghost use Rattle.ps_eqvm.specs.Instances.{LoadAs, LoadNowhere};
    ghost use Rattle.ps_machine.specs.Bytes.{be2, replaced, instance_bytes};

    /// Those of so many instances, each 0.
    pub fn all_zero(alloc: Global, instances: u16) -> Result<InstanceBytes, Memory>
        ensures { IfOk result (λ blocks. blocks ≡ replicate (INSTANCE_SIZE * instances) 0) }
    {
        let stored = vec![in alloc; 255; INSTANCE_SIZE * instances as usize]?;
        Ok(InstanceBytes { stored })
    }

    /// How many bytes there are.
    pub fn len(&self) -> usize
        ensures { result ≡ length self.now }
    {
        self.stored.len()
    }

    /// Each byte becomes what it is in others of the same number.
    pub fn copy_from(&mut self, other: &InstanceBytes)
        requires { length self.old ≡ length other.now }
        ensures { self.new ≡ other.now }
    {
        self.stored.copy_from_slice(&other.stored);
    }

    /// True only where each byte is as in others.
    pub fn is_twin_of(&self, other: &InstanceBytes) -> bool
        ensures { result ≡ true → self.now ≡ other.now }
    {
        self.stored == other.stored
    }

    /// Each byte is a byte. It does nothing when it runs.
    pub fn are_bytes(&self)
        ensures { (i : ℕ) → slice_index self.now i < 256 }
    {
        let _ = &self.stored;
    }

    /// What the bytes of instance i say, for any kind that can keep it. None comes where they load for no
    /// kind.
    #[inline(always)]
    pub fn at(&self, i: usize) -> Option<CountedBlock>
        requires { INSTANCE_SIZE * i + INSTANCE_SIZE ≤ length self.now }
        ensures some { IfSome result (λ block. LoadAs (instance_bytes 0 i self.now) (kept_of block)) }
        ensures none { IfNone result (LoadNowhere (instance_bytes 0 i self.now)) }
    {
        read(&self.stored, INSTANCE_SIZE * i)
    }

    /// The DiagCode of instance i: its bytes 0 and 1, the highest first.
    pub fn code(&self, i: usize) -> u16
        requires { INSTANCE_SIZE * i + INSTANCE_SIZE ≤ length self.now }
        ensures { result ≡ be2 self.now (INSTANCE_SIZE * i) }
    {
        u16::from_be_bytes([
            255 - self.stored[INSTANCE_SIZE * i],
            255 - self.stored[INSTANCE_SIZE * i + 1],
        ])
    }

    /// Instance i keeps this.
    #[inline(always)]
    pub fn put(&mut self, i: usize, block: CountedBlock)
        requires { INSTANCE_SIZE * i + INSTANCE_SIZE ≤ length self.old }
        ensures { self.new ≡ replaced self.old (INSTANCE_SIZE * i) (stored (kept_of block)) }
    {
        store(&mut self.stored, INSTANCE_SIZE * i, block);
    }

    /// One byte becomes another, by its plain value.
    pub fn poke(&mut self, at: usize, byte: u8)
        requires { at < length self.old }
        ensures { self.new ≡ slice_set self.old at byte }
    {
        self.stored[at] = 255 - byte;
    }

    /// Each byte becomes 0.
    pub fn clear(&mut self)
        ensures { self.new ≡ replicate (length self.old) 0 }
    {
        fill(&mut self.stored, 255);
    }
}

// Each byte becomes this one.
fn fill(bytes: &mut [u8], byte: u8)
    ensures { bytes.new ≡ replicate (length bytes.old) byte }
{
    bytes.fill(byte);
}
