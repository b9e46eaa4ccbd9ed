// `check APP`.

ghost use Rattle.std.specs.Prelude.{◌≡◌, ◌≢◌, ◌∷◌, []};
ghost use Rattle.ps_top.specs.Calls.{Answers};
ghost use Rattle.ps_top.specs.Program as program;

use crate::Status;
use crate::accepting::accept;
use crate::call::Call;
use crate::left::Leaving;
use crate::saying::say;
use ps_report::check_line;

// `check APP`: the counts of an accepted application.
pub(crate) fn check<C: Call>(call: &mut C, app: &str) -> Status
    ensures answers { Answers (program.check app.now) (app.now ∷ []) (C.seen call.old) (C.seen call.new) result }
    ensures no_usage { result ≢ Status.Usage }
{
    match accept(call, app) {
        Ok(accepted) => {
            let (source, app, checked) = accepted.into_sourced();
            let line = check_line(&app);
            call.leave(Leaving::Checked(checked));
            call.leave(Leaving::App(app, source));
            say(call, line.as_slice(), Status::Done)
        }
        Err(status) => status,
    }
}
