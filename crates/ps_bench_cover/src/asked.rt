// The input of which a condition of a guard asks something.

ghost use Rattle.std.specs.Prelude.{◌≡◌, ◌<◌, IfSome, Some};
ghost use Rattle.ps_model.specs.Args.{actual};
ghost use Rattle.ps_model.specs.Exprs.{formula};
ghost use Rattle.ps_model.specs.Network.{input_count as inputs_of};
ghost use Rattle.ps_bench_cover.specs.Ideas as ideas;

use ps_model::{App, Arg, Args, Expr, Kind, auxiliary_pin, reset_pin};
use ps_ways::{Ask, Condition};

// The pin of which something is asked, if it is one.
fn pin_asked(kind: Kind, ask: Ask) -> Option<u8>
    ensures { result ≡ ideas.pin_asked kind ask }
{
    match ask {
        Ask::Pin(j) => Some(j),
        Ask::Edge | Ask::Held => reset_pin(kind),
        Ask::Rise => auxiliary_pin(kind),
        Ask::Elapsed | Ask::NoMode | Ask::OneMode | Ask::ManyModes | Ask::LatchedMode => None,
    }
}

// The input that an expression is, if it is one.
fn input_in(app: &App, e: &Expr) -> Option<u16>
    ensures input { result ≡ ideas.input_in app.now (formula e.now) }
    ensures within { IfSome result (λ s. s < inputs_of app.now) }
{
    match e {
        Expr::Signal(s) if *s < app.input_count() => Some(*s),
        _ => None,
    }
}

// The input that stands at a pin, if one does.
fn input_wired(app: &App, arg: &Arg) -> Option<u16>
    ensures input { result ≡ ideas.input_wired app.now (Some (actual arg.now)) }
    ensures within { IfSome result (λ s. s < inputs_of app.now) }
{
    match arg {
        Arg::Value(e) => input_in(app, e),
        Arg::Free | Arg::Lit(_) | Arg::Time(_) => None,
    }
}

// The input that stands at a pin, where there is one.
fn input_at(app: &App, args: &Args, pin: Option<u8>) -> Option<u16>
    ensures input { result ≡ ideas.input_at app.now args.now pin }
    ensures within { IfSome result (λ s. s < inputs_of app.now) }
{
    let Some(j) = pin else {
        return None;
    };
    if usize::from(j) < args.len() {
        input_wired(app, args.at(usize::from(j)))
    } else {
        None
    }
}

/// The input of which a condition asks something, if it is one: the one that stands at the pin.
pub(crate) fn input_asked(app: &App, kind: Kind, args: &Args, condition: Condition) -> Option<u16>
    ensures input { result ≡ ideas.input_asked app.now kind args.now condition }
    ensures within { IfSome result (λ s. s < inputs_of app.now) }
{
    input_at(app, args, pin_asked(kind, condition.ask))
}

/// The value that an input has a scan before a condition is to be so: one that is to rise is FALSE.
pub(crate) fn value_before(condition: Condition) -> bool
    ensures { result ≡ ideas.value_before condition.ask condition.holds }
{
    match condition.ask {
        Ask::Edge | Ask::Rise => !condition.holds,
        _ => condition.holds,
    }
}
