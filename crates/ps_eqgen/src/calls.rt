// The limit of a call.

ghost use Rattle.std.specs.Prelude.{◌≡◌, length};
ghost use Rattle.ps_model.specs.Blocks.{block};
ghost use Rattle.ps_model.specs.Scanning.{limit_of};
ghost use Rattle.ps_model.specs.Args.{actual};
ghost use Rattle.ps_machine.specs.Limits.{literal_time};

use ps_model::{Arg, Args, Kind};
use ps_rows::{boolean_pins, own_limit};

// The TIME literal that stands at a pin in ms, and else 0.
fn time_at(arg: &Arg) -> u32
    ensures { result ≡ literal_time (actual arg.now) }
{
    if let Arg::Time(limit) = arg {
        return *limit;
    }
    0
}

/// The limit of a call in ms: the literal at the TIME pin, which stands after the Boolean pins, 0 where
/// that pin is free, and the kind's own where it has no TIME pin (profile).
#[tactic(auto, using(ps_machine::proofs::Timing::limit_timed, ps_machine::proofs::Timing::limit_own))]
pub fn call_limit(kind: Kind, args: &Args) -> u32
    requires { length args.now ≡ length (block kind).inputs }
    ensures { result ≡ limit_of kind args.now }
{
    let behind = usize::from(boolean_pins(kind));
    if args.len() > behind {
        time_at(args.at(behind))
    } else {
        own_limit(kind)
    }
}
