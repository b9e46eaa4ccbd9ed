// The sizes of an application, counted for channel B.

ghost use Rattle.std.specs.Prelude.{◌≡◌, IfOk, length};
ghost use Rattle.ps_model.specs.declared.sizes.Sizes.{Sizes};
ghost use Rattle.ps_model.specs.Sized.{AreSizesOf};

use ps_base::Memory;
use ps_model::{App, FirstPins, Kinds, Sizes};
use ps_rows::all_outputs;
use std::alloc::Global;

// How many inputs there are: the signals that stand before the outputs, which stand before the locals.
fn inputs_of(app: &App) -> u16
    ensures { result ≡ length app.now.inputs }
{
    app.declared_count() - app.local_count() - app.output_count()
}

/// The sizes of an application, by which channel B finds its cells. They are counted by code that channel A does not
/// run, so that one wrong count does not make both channels read another signal alike: each instance's outputs stand
/// after those of the instance before, by channel B's own table of kinds, and the place after the last is the
/// number of signals. They are those that `Sizes::of` answers. `Err` comes only if memory runs out.
pub fn equation_sizes(alloc: Global, app: &App) -> Result<Sizes, Memory>
    ensures sizes { IfOk result (λ sizes. AreSizesOf app.now sizes) }
    ensures same { IfOk result (λ sizes. (other : Sizes) → AreSizesOf app.now other → sizes ≡ other) }
{
    app.sound();
    let mut first_pins = FirstPins::new(alloc);
    let mut kinds = Kinds::new(alloc);
    let mut behind = app.declared_count();
    for i in 0..app.instance_count() {
        let kind = app.instance_kind(i);
        first_pins.push(behind)?;
        kinds.push(kind)?;
        behind += u16::from(all_outputs(kind));
    }
    Ok(Sizes {
        signals: behind,
        instances: app.instance_count(),
        inputs: inputs_of(app),
        outputs: app.output_count(),
        first_pins,
        kinds,
    })
}
