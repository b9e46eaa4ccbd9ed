// `cert APP`.

ghost use Rattle.std.specs.Prelude.{◌≡◌, ◌≢◌, ◌∷◌, []};
ghost use Rattle.ps_top.specs.Calls.{Answers};
ghost use Rattle.ps_top.specs.Program as program;

use crate::Status;
use crate::accepting::accept;
use crate::call::Call;
use crate::left::Leaving;
use crate::saying::say_lines;
use ps_base::Memory;

// `cert APP`: the certificate of an accepted application, line by line.
pub(crate) fn cert<C: Call>(call: &mut C, app: &str) -> Status
    ensures answers { Answers (program.cert app.now) (app.now ∷ []) (C.seen call.old) (C.seen call.new) result }
    ensures no_usage { result ≢ Status.Usage }
{
    match accept(call, app) {
        Ok(accepted) => match accepted.certificate_text(call.alloc()) {
            Ok(text) => {
                let (_, checked) = accepted.into_parts();
                call.leave(Leaving::Checked(checked));
                say_lines(call, text.as_slice(), Status::Done)
            }
            Err(Memory) => Status::Memory,
        },
        Err(status) => status,
    }
}
