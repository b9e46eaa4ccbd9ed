// What is asked of a scan, and its answer.

ghost use Rattle.std.specs.Prelude.{◌≡◌, ◌+◌, ◌<◌, ℕ, length, Contains, IfOk, OnOk, [], ◌∷◌};
ghost use Rattle.ps_model.specs.Blocks.{block};
ghost use Rattle.ps_model.specs.Network.{first_pin, instance_count, kind_at};
ghost use Rattle.ps_why.specs.Explanations.{HasReasons};
ghost use Rattle.ps_why.specs.Telling.{Adds};
ghost use Rattle.ps_why.specs.declared.fact.Fact.TheVariants.{PinIs, StateIs};
ghost use Rattle.ps_machine.specs.Calls as pins;
ghost use Rattle.ps_why.specs.Questions.{AreAskedFor, IsAllUsed, IsAnswered, IsAnsweredThere, IsOf, IsPinOfCall};
ghost use Rattle.ps_why.specs.Questions.{IsSafeValue, value_of};
ghost use Rattle.ps_why.specs.Scenes.{IsSceneFor};

use crate::Fact;
use crate::explaining::{Explanation, explain};
use crate::scene::Scene;
use ps_base::Memory;
use ps_machine::{bit_at, call_step, input_pin};
use ps_model::{App, safe_count};
use std::alloc::Global;

/// What is asked of a scan: why something is so.
#[derive(Clone, Copy)]
pub enum Question {
    /// Why a signal has its value, by its number.
    Signal(u16),
    /// Why an instance is in its state, and its safe outputs have their values.
    Instance(u16),
    /// Why the call of an instance reads its value at a Boolean input pin.
    Pin {
        /// The number of the instance.
        instance: u16,
        /// The number of the pin.
        pin: u8,
    },
}

// The fact that a signal has its value after a scan.
fn value_fact(s: u16, scene: &Scene<'_>) -> Fact
    ensures { result ≡ value_of scene.entry.now s }
{
    Fact::SignalIs {
        signal: s,
        value: bit_at(scene.signals.behind, s as usize),
    }
}

// The fact that the call of an instance reads its value at a pin.
fn pin_fact(app: &App, i: u16, j: u8, scene: &Scene<'_>) -> Fact
    requires { i < instance_count app.now }
    ensures { IsPinOfCall app.now scene.entry.now i j result }
{
    Fact::PinIs {
        step: call_step(app, i),
        pin: j,
        value: input_pin(app, i, j, &scene.signals),
    }
}

// The signal of a safe output.
fn output_signal(app: &App, i: u16, j: u8) -> u16
    requires instance { i < instance_count app.now }
    requires output { j < length (block (kind_at app.now i)).outputs }
    ensures { result ≡ first_pin app.now i + j }
{
    app.sound();
    app.first_pin(i) + j as u16
}

// Tells the values of the safe outputs of an instance.
fn tell_outputs(app: &App, i: u16, scene: &Scene<'_>, facts: &mut Vec<Fact>) -> Result<(), Memory>
    requires { i < instance_count app.now }
    ensures told { OnOk result ((j : ℕ) → j < length (block (kind_at app.now i)).outputs →
        Contains facts.new.items (value_of scene.entry.now (first_pin app.now i + j))) }
    ensures adds { OnOk result (Adds (IsSafeValue app.now scene.entry.now i) facts.old.items facts.new.items) }
{
    let count = safe_count(app.instance_kind(i));
    for j in 0..count {
        facts.push(value_fact(output_signal(app, i, j), scene))?;
    }
    Ok(())
}

// What is asked for.
fn roots_of(
    alloc: Global,
    app: &App,
    question: Question,
    scene: &Scene<'_>,
) -> Result<Vec<Fact>, Memory>
    requires fits { IsSceneFor app.now scene.now }
    requires of { IsOf app.now question }
    ensures answers { IfOk result (λ roots. IsAnswered app.now scene.entry.now question (Contains roots.items)) }
    ensures roots { IfOk result (λ roots. AreAskedFor app.now scene.entry.now question roots.items) }
{
    let mut roots = Vec::new(alloc);
    match question {
        Question::Signal(s) => {
            roots.push(value_fact(s, scene))?;
            Ok(roots)
        }
        Question::Instance(i) => {
            roots.push(Fact::StateIs {
                instance: i,
                code: scene.calls[i as usize].code,
            })?;
            tell_outputs(app, i, scene, &mut roots)?;
            Ok(roots)
        }
        Question::Pin { instance, pin } => {
            roots.push(pin_fact(app, instance, pin, scene))?;
            Ok(roots)
        }
    }
}

/// Why it is so what is asked for. `Err` comes only if memory runs out.
pub fn answer(
    alloc: Global,
    app: &App,
    question: Question,
    scene: &Scene<'_>,
) -> Result<Explanation, Memory>
    requires fits { IsSceneFor app.now scene.now }
    requires of { IsOf app.now question }
    // What is asked for is told.
    ensures answers { IfOk result (λ e. IsAnswered app.now scene.entry.now question (Contains e.facts.items)) }
    // Nothing is told that was not asked for and is no reason of a fact that is told before it.
    ensures used { IfOk result (IsAllUsed app.now scene.entry.now question) }
    // The reasons of each fact are told, all of them and no others, in their order.
    ensures reasons { IfOk result (HasReasons app.now scene.entry.now) }
    // In every scan that is seen so, all that is told is so, and explained.
    ensures meant { IfOk result (IsAnsweredThere app.now scene.entry.now) }
{
    app.sound();
    let roots = roots_of(alloc, app, question, scene)?;
    explain(alloc, app, roots.as_slice(), scene)
}
