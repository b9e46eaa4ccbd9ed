// What is noted of a call by several of its pins.

ghost use Rattle.std.specs.Prelude.{◌≡◌, ◌<◌, ◌||◌, length};
ghost use Rattle.ps_model.specs.Args.{actual};
ghost use Rattle.ps_model.specs.Network.{instance_count};
ghost use Rattle.ps_model.specs.StepOf.{IsStepOf};
ghost use Rattle.ps_model.specs.Steps.{action};
ghost use Rattle.ps_notes.specs.Notes.{at_pin, alone, are_same, of_both, of_channels, is_off, is_stuck, of_enabling};
ghost use Rattle.ps_notes.specs.Notes.{asks_by, asks, is_earlier, driver_of, is_made, is_lost, of_inverted};

use crate::note::Note;
use crate::noting::step_of;
use ps_model::{App, Arg, Args, Driver, Expr, Kind, Step};

// What stands at a pin of a call.
fn at_pin(args: &Args, pin: u8) -> &Arg
    requires { pin < length args.now }
    ensures { actual result.now ≡ at_pin args.now pin }
{
    args.at(pin as usize)
}

// The signal that an argument is, if it is one alone.
fn alone(arg: &Arg) -> Option<u16>
    ensures { result ≡ alone (actual arg.now) }
{
    match arg {
        Arg::Value(Expr::Signal(signal)) => Some(*signal),
        Arg::Value(Expr::And(_) | Expr::Or(_)) => None,
        Arg::Free | Arg::Lit(_) | Arg::Time(_) => None,
    }
}

// The signal that stands alone at a pin.
#[tactic(auto, using(crate::proofs::Past::nothing_past))]
fn signal_at(args: &Args, pin: u8) -> Option<u16>
    ensures { result ≡ alone (at_pin args.now pin) }
{
    if pin as usize >= args.len() {
        return None;
    }
    alone(at_pin(args, pin))
}

// Whether one signal stands twice.
fn are_same(first: Option<u16>, second: Option<u16>) -> bool
    ensures { result ≡ are_same first second }
{
    match (first, second) {
        (Some(first), Some(second)) => first == second,
        _ => false,
    }
}

// That two pins have one signal.
fn of_both(instance: u16, args: &Args, pin: u8, next: u8) -> Option<Note>
    ensures { result ≡ of_both instance pin (at_pin args.now pin) (at_pin args.now next) }
{
    if are_same(signal_at(args, pin), signal_at(args, next)) {
        Some(Note::Joined { instance, pin })
    } else {
        None
    }
}

/// That both channels of a block have one signal.
pub(crate) fn of_channels(kind: Kind, instance: u16, args: &Args) -> Option<Note>
    ensures { result ≡ of_channels kind instance args.now }
{
    match kind {
        Kind::Equivalent | Kind::Antivalent => of_both(instance, args, 1, 2),
        Kind::TwoHandTwo | Kind::TwoHandThree => of_both(instance, args, 1, 2),
        Kind::GuardMonitoring => of_both(instance, args, 1, 2),
        Kind::EnableSwitch => of_both(instance, args, 2, 3),
        _ => None,
    }
}

// Whether nothing or FALSE stands at a pin.
#[tactic(auto, using(crate::proofs::Past::nothing_past))]
fn is_off(args: &Args, pin: u8) -> bool
    ensures { result ≡ is_off (at_pin args.now pin) }
{
    if pin as usize >= args.len() {
        return true;
    }
    match at_pin(args, pin) {
        Arg::Free => true,
        Arg::Lit(value) => !*value,
        Arg::Time(_) | Arg::Value(_) => false,
    }
}

// Whether a block is never enabled.
fn is_stuck(kind: Kind, args: &Args) -> bool
    ensures { result ≡ is_stuck kind args.now }
{
    match kind {
        Kind::EmergencyStop | Kind::Espe => is_off(args, 2) && is_off(args, 4),
        Kind::GuardMonitoring => is_off(args, 3) && is_off(args, 4) && is_off(args, 5),
        Kind::GuardLocking => is_off(args, 5) && is_off(args, 6) && is_off(args, 7),
        Kind::OutControl => is_off(args, 4) && is_off(args, 5) && is_off(args, 6),
        Kind::Edm => is_off(args, 4) && is_off(args, 5),
        _ => false,
    }
}

/// That a block is never enabled.
pub(crate) fn of_enabling(kind: Kind, instance: u16, args: &Args) -> Option<Note>
    ensures { result ≡ of_enabling kind instance args.now }
{
    if is_stuck(kind, args) {
        Some(Note::Never { instance })
    } else {
        None
    }
}

// Whether a call of this kind asks for a reset.
fn asks_by(kind: Kind, args: &Args) -> bool
    ensures { result ≡ asks_by kind args.now }
{
    match kind {
        Kind::EmergencyStop | Kind::Espe => is_off(args, 2) && is_off(args, 3),
        Kind::GuardMonitoring => is_off(args, 3) && is_off(args, 4),
        Kind::GuardLocking => is_off(args, 5) && is_off(args, 6),
        _ => false,
    }
}

// Whether a step asks for a reset.
fn asks(app: &App, step: &Step) -> bool
    requires { IsStepOf app.now (action step.now) }
    ensures { result ≡ asks app.now (action step.now) }
{
    match step {
        Step::Assign { .. } => false,
        Step::Call { instance, args } => asks_by(app.instance_kind(*instance), args),
    }
}

/// Whether a block asks for a reset up to a step, where one before it did or none.
pub(crate) fn has_asked(app: &App, asked: bool, step: &Step) -> bool
    requires { IsStepOf app.now (action step.now) }
    ensures { result ≡ (asked || asks app.now (action step.now)) }
{
    asked || asks(app, step)
}

// Whether a driver comes before another one.
fn is_earlier(first: Option<Driver>, second: Option<Driver>) -> bool
    ensures { result ≡ is_earlier first second }
{
    match (first, second) {
        (Some(first), Some(second)) => step_of(first) < step_of(second),
        _ => false,
    }
}

// What drives a signal, or None for a number that is no signal.
fn driver_of(app: &App, signal: u16) -> Option<Driver>
    ensures { result ≡ driver_of app.now signal }
{
    if signal < app.signal_count() {
        app.driver(signal)
    } else {
        None
    }
}

// Whether a signal is no input, and is driven before the call of an instance.
fn is_made(app: &App, instance: u16, signal: u16) -> bool
    requires { instance < instance_count app.now }
    ensures { result ≡ is_made app.now instance signal }
{
    if signal < app.input_count() {
        return false;
    }
    is_earlier(
        driver_of(app, signal),
        driver_of(app, app.first_pin(instance)),
    )
}

// Whether a "not" of an argument of an instance is left out of demands.
fn is_lost(app: &App, instance: u16, arg: &Arg) -> bool
    requires { instance < instance_count app.now }
    ensures { result ≡ is_lost app.now instance (actual arg.now) }
{
    match arg {
        Arg::Value(Expr::Signal(signal)) => is_made(app, instance, *signal),
        Arg::Value(Expr::And(_) | Expr::Or(_)) => true,
        Arg::Free | Arg::Lit(_) | Arg::Time(_) => false,
    }
}

// Whether a "not" of a pin of an instance is left out of demands.
#[tactic(auto, using(crate::proofs::Past::nothing_past))]
fn is_lost_at(app: &App, instance: u16, args: &Args, pin: u8) -> bool
    requires { instance < instance_count app.now }
    ensures { result ≡ is_lost app.now instance (at_pin args.now pin) }
{
    if pin as usize >= args.len() {
        return false;
    }
    is_lost(app, instance, at_pin(args, pin))
}

/// That a "not" of a pin of an instance is left out of demands.
pub(crate) fn of_inverted(app: &App, kind: Kind, instance: u16, args: &Args) -> Option<Note>
    requires { instance < instance_count app.now }
    ensures { result ≡ of_inverted app.now kind instance args.now }
{
    match kind {
        Kind::Antivalent if is_lost_at(app, instance, args, 2) => Some(Note::Inverted {
            instance,
            pin: 2,
        }),
        Kind::SafetyRequest if is_lost_at(app, instance, args, 1) => Some(Note::Inverted {
            instance,
            pin: 1,
        }),
        _ => None,
    }
}
