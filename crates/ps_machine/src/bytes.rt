// Bytes at places of a region, numbers of several bytes big-endian.

ghost use Rattle.std.specs.Prelude.{◌≡◌, ◌+◌, ◌≤◌, ◌<◌, ◌^◌, length, slice_index, nat_lt, is_err};
ghost use Rattle.ps_machine.specs.Bytes.{be2, be4, replaced, overwritten};
ghost use Rattle.ps_machine.specs.Progressing.{progress_said};

use ps_model::{OutOfRegion, Progress};

/// What a progress byte says, by its plain value: Running for 0, Done for 1, Trapped with the value
/// less 1 for 2 to 8, and Trapped(0) for 9 to 255 (profile).
pub fn progress_of_byte(byte: u8) -> Progress
    ensures { result ≡ progress_said byte }
{
    match byte {
        0 => Progress::Running,
        1 => Progress::Done,
        2..=8 => Progress::Trapped(byte - 1),
        _ => Progress::Trapped(0),
    }
}

/// The number in the two bytes at a place, the highest first.
pub fn number_in_two(bytes: &[u8], at: usize) -> u16
    requires { at + 2 ≤ length bytes.now }
    ensures { result ≡ be2 bytes.now at }
{
    u16::from_be_bytes([bytes[at], bytes[at + 1]])
}

/// The number in the four bytes at a place, the highest first.
pub fn number_in_four(bytes: &[u8], at: usize) -> u32
    requires { at + 4 ≤ length bytes.now }
    ensures { result ≡ be4 bytes.now at }
{
    u32::from_be_bytes([bytes[at], bytes[at + 1], bytes[at + 2], bytes[at + 3]])
}

/// Writes bytes at a place.
pub fn replace(bytes: &mut [u8], at: usize, new: &[u8])
    requires { at + length new.now ≤ length bytes.old }
    ensures { bytes.new ≡ replaced bytes.old at new.now }
{
    bytes[at..at + new.len()].copy_from_slice(new);
}

/// Replaces bytes of a region. OutOfRegion comes exactly where they would pass its end, and then
/// nothing changed.
pub fn overwrite(region: &mut [u8], at: u32, new: &[u8]) -> Result<(), OutOfRegion>
    requires { length region.old < 2 ^ 32 }
    ensures written { region.new ≡ overwritten region.old at new.now }
    ensures refused { is_err result ≡ nat_lt (length region.old) (at + length new.now) }
{
    let at = at as usize;
    if at > region.len() || new.len() > region.len() - at {
        return Err(OutOfRegion);
    }
    replace(region, at, new);
    Ok(())
}
