// The types of signals and input pins, as SAFEBOOL flow asks for them.

ghost use Rattle.std.specs.Prelude.{◌≡◌, ◌<◌, length};
ghost use Rattle.ps_model.specs.Blocks.{block};
ghost use Rattle.ps_model.specs.Network.{signal_count};
ghost use Rattle.ps_model.specs.Scanning.{pin_at};
ghost use Rattle.ps_model.specs.Typing.{is_safe_signal};

use crate::app::App;
use crate::kind::{Kind, Ty};
use crate::pins::pin_row;

/// The type of an input pin of a kind.
pub fn input_type(kind: Kind, j: u8) -> Ty
    requires { j < length (block kind).inputs }
    ensures { result ≡ (pin_at kind j).ty }
{
    pin_row(kind, j).ty
}

/// Whether a signal is SAFEBOOL.
pub fn is_safe(app: &App, s: u16) -> bool
    requires { s < signal_count app.now }
    ensures { result ≡ is_safe_signal app.now s }
{
    app.signal_type(s) == Ty::Safe
}
