// Channel B's own copy of an application's sizes.

ghost use Rattle.std.specs.Prelude.{◌≡◌, IfOk};

use ps_base::Memory;
use ps_model::{FirstPins, Kinds, Sizes};
use std::alloc::Global;

// A copy of these sizes. Channel B copies them by itself: a copy by which another signal is read, if both channels made
// it, would make both reports wrong alike.
pub(crate) fn copy_of(alloc: Global, sizes: &Sizes) -> Result<Sizes, Memory>
    ensures { IfOk result (λ copy. copy ≡ sizes.now) }
{
    let mut first_pins = FirstPins::new(alloc);
    let mut kinds = Kinds::new(alloc);
    for i in 0..sizes.instances as usize {
        let first = sizes.first_pins.at(i);
        let kind = sizes.kinds.at(i);
        first_pins.push(first)?;
        kinds.push(kind)?;
    }
    Ok(Sizes {
        signals: sizes.signals,
        instances: sizes.instances,
        inputs: sizes.inputs,
        outputs: sizes.outputs,
        first_pins,
        kinds,
    })
}
