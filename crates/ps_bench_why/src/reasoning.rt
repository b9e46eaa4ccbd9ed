// What is told of the scan that was found.

ghost use Rattle.std.specs.Prelude.{◌≡◌, ◌<◌, ℕ, IfOk, Some, length, map};
ghost use Rattle.ps_bench_why.specs.Reasoned.{IsReasoned, question_of, question_of_pin};
ghost use Rattle.ps_model.specs.Blocks.{block};
ghost use Rattle.ps_model.specs.Network.{instance_count, kind_at};
ghost use Rattle.ps_model.specs.Pins.{pin_count};
ghost use Rattle.ps_bench_why.specs.Looking.{IsLook};
ghost use Rattle.ps_bench_why.specs.Scanned.{Scanned};
ghost use Rattle.ps_bench_why.specs.Walking.{IsWalkerFor};
ghost use Rattle.ps_bench_why.specs.declared.walker.Since.{Since as SinceOf};
ghost use Rattle.ps_why.specs.Questions.{IsOf};
ghost use Rattle.ps_bench_names.specs.Names.{IsNameOf};

use crate::because;
use crate::placing::places_of;
use crate::walker::{LastScan, Since, Walker};
use ps_base::{Bytes, Memory};
use ps_bench_names::Name;
use ps_cover::Format;
use ps_machine::Signals;
use ps_model::{App, input_count};
use ps_parser::Source;
use ps_why::laws::whatever_the_inputs;
use ps_why::{Moment, Question, Scene, answer};
use std::alloc::Global;

// What is asked of a pin of an instance.
fn question_of_pin(app: &App, i: u16, j: u8) -> Question
    requires instance { i < instance_count app.now }
    requires pin { j < pin_count (kind_at app.now i) }
    ensures asks { result ≡ question_of_pin app.now i j }
    ensures of { IsOf app.now result }
{
    let inputs = input_count(app.instance_kind(i));
    if j < inputs {
        Question::Pin {
            instance: i,
            pin: j,
        }
    } else {
        app.sound();
        Question::Signal(app.first_pin(i) + u16::from(j - inputs))
    }
}

/// What a name asks.
pub(crate) fn question_of(app: &App, name: Name) -> Question
    requires { IsNameOf app.now name }
    ensures asks { result ≡ question_of app.now name }
    ensures of { IsOf app.now result }
{
    match name {
        Name::Signal(s) => Question::Signal(s),
        Name::Code(i) => Question::Instance(i),
        Name::Pin { instance, pin } => question_of_pin(app, instance, pin),
    }
}

// Since when each instance was in its state before the scan.
fn all_before(alloc: Global, since: &[Since]) -> Result<Vec<u32>, Memory>
    ensures { IfOk result (λ times. times.items ≡ map (λ (s : SinceOf). s.before) since.now) }
{
    let mut times = Vec::with_capacity(alloc, since.len())?;
    for noted in since {
        times.push(noted.before)?;
    }
    Ok(times)
}

// Since when each instance is in its state after the scan.
fn all_behind(alloc: Global, since: &[Since]) -> Result<Vec<u32>, Memory>
    ensures { IfOk result (λ times. times.items ≡ map (λ (s : SinceOf). s.behind) since.now) }
{
    let mut times = Vec::with_capacity(alloc, since.len())?;
    for noted in since {
        times.push(noted.behind)?;
    }
    Ok(times)
}

/// Why it is so what is asked, in the scan that was found, with the places of the source.
pub(crate) fn reasoned(
    alloc: Global,
    app: &App,
    source: &Source,
    walker: &Walker,
    times: LastScan,
    question: Question,
    format: Format,
) -> Result<Bytes, Memory>
    requires fits { IsWalkerFor app.now walker.now }
    requires of { IsOf app.now question }
    ensures { IfOk result (λ text. (s : Scanned) → IsLook app.now s walker.now → walker.now.last ≡ Some times →
        IsReasoned app.now source.now s question format text) }
{
    let calls = walker.calls(alloc)?;
    let scene = Scene {
        signals: Signals {
            before: walker.signals_before(),
            behind: walker.signals_behind(),
        },
        calls: calls.as_slice(),
    };
    let explanation = answer(alloc, app, question, &scene)?;
    let places = places_of(alloc, app, source, explanation.facts.as_slice())?;
    let before = all_before(alloc, walker.since())?;
    let behind = all_behind(alloc, walker.since())?;
    let moment = Moment {
        app,
        now: times.now,
        before: times.before,
        since_before: before.as_slice(),
        since: behind.as_slice(),
        calls: scene.calls,
    };
    whatever_the_inputs(app);
    because(alloc, &moment, &explanation, places.as_slice(), format)
}
