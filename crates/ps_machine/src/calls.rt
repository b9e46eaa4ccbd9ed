// What the compilers write of a call: the free values of its pins, and its limit.

ghost use Rattle.std.specs.Prelude.{◌≡◌, ◌<◌, length};
ghost use Rattle.ps_model.specs.Blocks.{block};
ghost use Rattle.ps_model.specs.Scanning.{pin_at, limit_of};
ghost use Rattle.ps_model.specs.Args.{actual};
ghost use Rattle.ps_machine.specs.Kinds.{kind_of};
ghost use Rattle.ps_machine.specs.Limits.{literal_time};

use ps_model::{Arg, Args, Kind, boolean_count, fixed_limit, kind_numbered, pin_row};

/// The kind with a number of code, and None exactly where no kind has it.
pub fn kind_by_number(number: u8) -> Option<Kind>
    ensures { result ≡ kind_of number }
{
    kind_numbered(number)
}

/// The value of an input pin that a call does not name, by the pin's number. SF_Antivalent alone has a pin that is TRUE
/// then, so no row is looked up for the others.
pub fn free_value(kind: Kind, j: u8) -> bool
    requires { j < length (block kind).inputs }
    ensures { result ≡ (pin_at kind j).free }
{
    match kind {
        Kind::Antivalent => pin_row(kind, j).free,
        _ => false,
    }
}

// The TIME literal that stands at a pin in ms, and else 0.
fn literal_at(arg: &Arg) -> u32
    ensures { result ≡ literal_time (actual arg.now) }
{
    match arg {
        Arg::Time(t) => *t,
        _ => 0,
    }
}

/// The limit of a call in ms: the literal at the kind's TIME pin, 0 where that pin is free, and the
/// kind's own where it has no TIME pin (profile).
#[tactic(auto, using(crate::proofs::Timing::limit_timed, crate::proofs::Timing::limit_own))]
pub fn call_limit(kind: Kind, args: &Args) -> u32
    requires { length args.now ≡ length (block kind).inputs }
    ensures { result ≡ limit_of kind args.now }
{
    let time_pin = boolean_count(kind) as usize;
    if time_pin < args.len() {
        literal_at(args.at(time_pin))
    } else {
        fixed_limit(kind)
    }
}
