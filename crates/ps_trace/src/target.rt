// Who the faults of a file strike.

ghost use Rattle.std.specs.Prelude.{◌≡◌, ℕ, List, Bool, true, Option};
ghost use Rattle.ps_model.specs.declared.channel.Region.{Region as RegionOf};
ghost use Rattle.ps_trace.specs.declared.target.FaultLine.{FaultLine as LineOf};

use ps_base::Bytes;
use ps_model::Region;

/// The parts of a line of a fault file: at one moment of a run some bytes are replaced.
#[derive(Drop)]
pub struct FaultLine<W> {
    /// In this scan, counted from 1.
    pub scan: u32,
    /// Before this turn of the scan; 0 means before the scan begins.
    pub turn: u32,
    /// Of this one.
    pub who: W,
    /// In this region.
    pub region: Region,
    /// From this byte on, counted from 0.
    pub at: u32,
    /// What stands there then.
    pub bytes: Bytes,
}

/// Who the faults of a file strike, as the channels of a world of two, and what a fault is that strikes one.
///
/// Contracts know of it who a word names, whether two are the same, the lengths of regions, the fault of a line with
/// its number, and the parts of a fault.
pub trait Target: Copy {
    /// The lengths of all regions.
    type Sizes;

    /// A fault.
    type Fault: Drop;

    /// Who a word names.
    ghost named_by: { List ℕ → Option Self };

    /// Whether two are the same.
    ghost is_same: { Self → Self → Bool };

    /// The length of a region.
    ghost length_of: { Self.Sizes → Self → RegionOf → ℕ };

    /// The fault of a line with this number.
    ghost made: { ℕ → LineOf Self → Self.Fault };

    /// The parts of a fault's line.
    ghost parts: { Self.Fault → LineOf Self };

    /// Who a word names.
    fn named(word: &[u8]) -> Option<Self>
        ensures { result ≡ named_by word.now };

    /// Whether two are the same.
    fn is(self, other: Self) -> bool
        ensures { result ≡ is_same self other };

    /// The length of a region, in bytes.
    fn region_length(self, sizes: &Self::Sizes, region: Region) -> u32
        ensures { result ≡ length_of sizes.now self region };

    /// The fault of a line with this number. It takes no memory.
    fn fault(number: u32, line: FaultLine<Self>) -> Self::Fault
        ensures { result ≡ made number line };

    /// Those that are the same are equal.
    ghost same_are_equal: { (a b : Self) → is_same a b ≡ true → a ≡ b };

    /// A fault keeps the parts of its line.
    ghost keeps_parts: { (number : ℕ) (line : LineOf Self) → parts (made number line) ≡ line };
}
