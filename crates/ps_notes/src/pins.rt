// What is noted of a pin of an instance.

ghost use Rattle.std.specs.Prelude.{◌≡◌, ◌<◌, length};
ghost use Rattle.ps_model.specs.Action.{free};
ghost use Rattle.ps_model.specs.Args.{actual};
ghost use Rattle.ps_model.specs.Blocks.{block};
ghost use Rattle.ps_notes.specs.Notes.{is_restart, is_reset, is_relay, of_true, of_pin};

use crate::note::Note;
use ps_model::{Arg, Kind, Ty, input_type, pin_name};

// Whether a pin lets a block start or restart without a Reset, by its name.
fn is_restart(name: &[u8]) -> bool
    ensures { result ≡ is_restart name.now }
{
    name == b"S_StartReset".as_slice() || name == b"S_AutoReset".as_slice()
}

// Whether a pin acknowledges, by its name.
fn is_reset(name: &[u8]) -> bool
    ensures { result ≡ is_reset name.now }
{
    name == b"Reset".as_slice()
}

// Whether a kind hands on a release which another block gave.
fn is_relay(kind: Kind) -> bool
    ensures { result ≡ is_relay kind }
{
    match kind {
        Kind::OutControl | Kind::Edm => true,
        _ => false,
    }
}

// What is noted of a pin at which nothing stands.
fn of_free_pin(kind: Kind, instance: u16, pin: u8, asked: bool) -> Option<Note>
    requires { pin < length (block kind).inputs }
    ensures { result ≡ of_pin kind instance pin asked free }
{
    if pin == 0 {
        Some(Note::Idle { instance })
    } else if input_type(kind, pin) == Ty::Time {
        Some(Note::NoTime { instance, pin })
    } else {
        None
    }
}

// What is noted of TRUE at a pin of this name.
fn of_true(kind: Kind, instance: u16, pin: u8, asked: bool, name: &[u8]) -> Option<Note>
    ensures { result ≡ of_true kind instance pin asked name.now }
{
    if is_reset(name) {
        Some(Note::Static { instance, pin })
    } else if is_restart(name) && !(asked && is_relay(kind)) {
        Some(Note::Restarts { instance, pin })
    } else {
        None
    }
}

/// What is noted of what stands at a pin. `asked` says that a block before asks for a reset.
pub(crate) fn of_pin(kind: Kind, instance: u16, pin: u8, asked: bool, arg: &Arg) -> Option<Note>
    requires { pin < length (block kind).inputs }
    ensures { result ≡ of_pin kind instance pin asked (actual arg.now) }
{
    match arg {
        Arg::Free => of_free_pin(kind, instance, pin, asked),
        Arg::Lit(true) => of_true(kind, instance, pin, asked, pin_name(kind, pin).as_bytes()),
        Arg::Lit(false) if pin == 0 => Some(Note::Off { instance }),
        Arg::Time(0) => Some(Note::Zero { instance, pin }),
        Arg::Lit(false) | Arg::Time(_) | Arg::Value(_) => None,
    }
}
