// The byte that a fault leaves.

ghost use Rattle.std.specs.Prelude.{◌≡◌};
ghost use Rattle.ps_bench_trials.specs.Bytes.{byte_left};

use ps_model::Region;

/// The byte that a fault leaves at a place of a region, where this is the code of the channel as compiled: in code some
/// bits of what was compiled are turned, and in cells this byte is put there.
pub fn byte_left(code: &[u8], region: Region, at: u32, bits: u8) -> u8
    ensures { result ≡ byte_left code.now region at bits }
{
    match region {
        Region::Code => code.get(at as usize).copied().unwrap_or(0) ^ bits,
        Region::Cells => bits,
    }
}
