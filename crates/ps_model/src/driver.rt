// What drives a signal, and the lists of first steps by which it is found without a walk.

ghost use Rattle.std.specs.Prelude.{◌≡◌, ℕ, ◌<◌, ◌==◌, OnOk, length};
ghost use Rattle.ps_model.specs.FirstSteps.{step_noted, with_step};

use ps_base::Memory;

/// What drives a signal: the step that assigns it, or the step that calls the instance whose output it is.
/// Steps, instances and the outputs of an instance are numbered from 0.
#[derive(Clone, Copy)]
pub enum Driver {
    /// A step assigns the signal.
    Assigned {
        /// The number of the step.
        step: u16,
    },
    /// The signal is an output of an instance.
    Output {
        /// The number of the instance.
        instance: u16,
        /// The number of the output: the safe outputs, then Ready and Error.
        output: u16,
        /// The number of the step that calls the instance.
        step: u16,
    },
}

// Makes room for a number. What is noted stays, also if memory runs out.
pub(crate) fn make_room(slots: &mut Vec<Option<usize>>, number: u16) -> Result<(), Memory>
    ensures kept { (n : ℕ) → step_noted slots.new.items n ≡ step_noted slots.old.items n }
    ensures room { OnOk result (number < length slots.new.items) }
{
    if slots.len() <= number as usize {
        slots.resize(number as usize + 1, None)?;
    }
    Ok(())
}

// Notes a step for a number, unless one is noted.
pub(crate) fn note(slots: &mut Vec<Option<usize>>, number: u16, step: usize)
    requires { number < length slots.old.items }
    ensures { (n : ℕ) → step_noted slots.new.items n ≡ with_step (number == n) step (step_noted slots.old.items n) }
{
    let slot = &mut slots[number as usize];
    if slot.is_none() {
        *slot = Some(step);
    }
}

// The step that is noted for a number.
pub(crate) fn step_noted(slots: &[Option<usize>], number: u16) -> Option<usize>
    ensures { result ≡ step_noted slots.now number }
{
    slots.get(number as usize).copied().flatten()
}
