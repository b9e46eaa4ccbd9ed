// The outputs of a kind of block, by their names.

ghost use Rattle.std.specs.Prelude.{◌≡◌};
ghost use Rattle.ps_names.specs.Stands.{output_at};

use crate::sorts::pin_of;
use ps_model::{Kind, input_count};
use ps_parser::Name;

/// The place of an output among those of its kind.
pub fn output_at(kind: Kind, pin: &Name) -> u8
    ensures { result ≡ output_at kind pin.now }
{
    match pin_of(kind, pin) {
        Some(j) => j.saturating_sub(input_count(kind)),
        None => 0,
    }
}
