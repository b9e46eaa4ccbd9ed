// `demand APP`.

ghost use Rattle.std.specs.Prelude.{◌≡◌, ◌≢◌, ◌∷◌, []};
ghost use Rattle.ps_top.specs.Calls.{Answers};
ghost use Rattle.ps_top.specs.Program as program;

use crate::Status;
use crate::accepting::accept_demands;
use crate::call::Call;
use crate::saying::say_lines;

// `demand APP`: what each SAFEBOOL output of an accepted application demands, line by line.
pub(crate) fn demand<C: Call>(call: &mut C, app: &str) -> Status
    ensures answers { Answers (program.demand app.now) (app.now ∷ []) (C.seen call.old) (C.seen call.new) result }
    ensures no_usage { result ≢ Status.Usage }
{
    match accept_demands(call, app) {
        Ok(lines) => say_lines(call, lines.as_slice(), Status::Done),
        Err(status) => status,
    }
}
