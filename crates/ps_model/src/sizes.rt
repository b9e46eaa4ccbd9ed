// The sizes of an application, by which a channel finds its cells.

ghost use Rattle.std.specs.Prelude.{◌≡◌, IfOk};
ghost use Rattle.ps_model.specs.Places.{ArePlaces};

use crate::app::App;
use crate::values::{FirstPins, Kinds};
use ps_base::Memory;
use std::alloc::Global;

/// The sizes of an application: how many signals, instances, inputs and outputs it has, and where the outputs of each
/// instance stand.
pub struct Sizes {
    /// How many signals there are, pin outputs among them.
    pub signals: u16,
    /// How many instances there are.
    pub instances: u16,
    /// How many inputs there are.
    pub inputs: u16,
    /// How many outputs there are.
    pub outputs: u16,
    /// Of each instance the number of its first output signal.
    pub first_pins: FirstPins,
    /// Of each instance the kind.
    pub kinds: Kinds,
    ghost places: { ArePlaces signals instances inputs outputs first_pins kinds },
}

impl Drop for Sizes {
    // One call for whoever owns one, in place of a walk through all that it holds.
    fn drop(self) {
        let Sizes {
            signals: _,
            instances: _,
            inputs: _,
            outputs: _,
            first_pins: _,
            kinds: _,
        } = self;
    }
}

// A copy of first output signals.
fn copy_of_first_pins(alloc: Global, first_pins: &FirstPins) -> Result<FirstPins, Memory>
    ensures { IfOk result (λ copy. copy ≡ first_pins.now) }
{
    let mut copy = FirstPins::new(alloc);
    for i in 0..first_pins.len() {
        copy.push(first_pins.at(i))?;
    }
    Ok(copy)
}

// A copy of kinds.
fn copy_of_kinds(alloc: Global, kinds: &Kinds) -> Result<Kinds, Memory>
    ensures { IfOk result (λ copy. copy ≡ kinds.now) }
{
    let mut copy = Kinds::new(alloc);
    for i in 0..kinds.len() {
        copy.push(kinds.at(i))?;
    }
    Ok(copy)
}

impl Sizes {
    ghost use Rattle.std.specs.Prelude.{◌≡◌, IfOk};
    ghost use Rattle.ps_model.specs.Sized.{AreSizesOf};

    /// The sizes of an application. `Err` comes only if memory runs out.
    pub fn of(alloc: Global, app: &App) -> Result<Sizes, Memory>
        ensures { IfOk result (λ sizes. AreSizesOf app.now sizes) }
    {
        app.sound();
        let mut first_pins = FirstPins::new(alloc);
        let mut kinds = Kinds::new(alloc);
        for i in 0..app.instance_count() {
            first_pins.push(app.first_pin(i))?;
            kinds.push(app.instance_kind(i))?;
        }
        Ok(Sizes {
            signals: app.signal_count(),
            instances: app.instance_count(),
            inputs: app.input_count(),
            outputs: app.output_count(),
            first_pins,
            kinds,
        })
    }

    /// A copy of these sizes. `Err` comes only if memory runs out.
    pub fn copy(&self, alloc: Global) -> Result<Sizes, Memory>
        ensures { IfOk result (λ copy. copy ≡ self.now) }
    {
        let first_pins = copy_of_first_pins(alloc, &self.first_pins)?;
        let kinds = copy_of_kinds(alloc, &self.kinds)?;
        Ok(Sizes {
            signals: self.signals,
            instances: self.instances,
            inputs: self.inputs,
            outputs: self.outputs,
            first_pins,
            kinds,
        })
    }
}
