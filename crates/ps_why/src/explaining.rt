// All that facts of a scan rest on.

ghost use Rattle.std.specs.Prelude.{◌≡◌, ◌<◌, true, IfOk, IfSome, Some, length, slice_get};
ghost use Rattle.ps_why.specs.Entering.{Enters, EntersAll};
ghost use Rattle.ps_why.specs.Explanations.{HasReasons, IsMeantThere, IsTold};
ghost use Rattle.ps_why.specs.Reasons.{reasons_of};
ghost use Rattle.ps_why.specs.Scenes.{IsSceneFor};

use crate::Fact;
use crate::asks::ask_facts;
use crate::pin_reasons::pin_facts;
use crate::scene::Scene;
use crate::signals::signal_facts;
use crate::states::{mode_facts, state_facts};
use ps_base::Memory;
use ps_model::App;
use ps_ways::Ask;
use std::alloc::Global;

/// The numbers of the facts on which a fact rests, in the order in which they are told. There are none where it is a
/// leaf.
#[derive(Drop)]
pub struct Reasons {
    /// The numbers.
    pub facts: Vec<u32>,
}

/// All that is told of a scan for some facts.
#[derive(Drop)]
pub struct Explanation {
    /// The facts, numbered from 0: those that were asked for, and then those that they rest on.
    pub facts: Vec<Fact>,
    /// For each fact on which it rests.
    pub reasons: Vec<Reasons>,
}

// On what a fact rests.
fn facts_of(alloc: Global, app: &App, fact: Fact, scene: &Scene<'_>) -> Result<Vec<Fact>, Memory>
    requires { IsSceneFor app.now scene.now }
    ensures { IfOk result (λ facts. facts.items ≡ reasons_of app.now scene.entry.now fact) }
{
    match fact {
        Fact::SignalIs { signal, value } => signal_facts(alloc, app, signal, value, scene),
        Fact::PinIs { step, pin, .. } => pin_facts(alloc, app, step, pin, scene),
        Fact::AskIs { step, ask, .. } => ask_facts(alloc, app, step, ask, scene),
        Fact::StateIs { instance, .. } => state_facts(alloc, app, instance, scene),
        Fact::ModeIs { instance, .. } => mode_facts(alloc, app, instance, scene),
        Fact::SignalWas { .. }
        | Fact::StateWas { .. }
        | Fact::ResetWas { .. }
        | Fact::AuxiliaryWas { .. }
        | Fact::ModeWas { .. } => Ok(Vec::new(alloc)),
    }
}

// The place of what a guard can ask among 32.
fn ask_place(ask: Ask) -> usize
    ensures { result < 32 }
{
    match ask {
        Ask::Pin(j) => (j % 16) as usize,
        Ask::Edge => 16,
        Ask::Held => 17,
        Ask::Rise => 18,
        Ask::Elapsed => 19,
        Ask::NoMode => 20,
        Ask::OneMode => 21,
        Ask::ManyModes => 22,
        Ask::LatchedMode => 23,
    }
}

// The place at which a fact is looked up: one for each that can be so in a scan.
fn place_of(app: &App, fact: Fact) -> usize {
    let signals = app.signal_count() as usize;
    let pins = 2 * signals;
    let asks = pins + 16 * app.step_count() as usize;
    let states = asks + 32 * app.step_count() as usize;
    match fact {
        Fact::SignalIs { signal, .. } => signal as usize,
        Fact::SignalWas { signal, .. } => signals + signal as usize,
        Fact::PinIs { step, pin, .. } => pins + 16 * step as usize + (pin % 16) as usize,
        Fact::AskIs { step, ask, .. } => asks + 32 * step as usize + ask_place(ask),
        Fact::StateIs { instance, .. } => states + 6 * instance as usize,
        Fact::StateWas { instance, .. } => states + 6 * instance as usize + 1,
        Fact::ResetWas { instance, .. } => states + 6 * instance as usize + 2,
        Fact::AuxiliaryWas { instance, .. } => states + 6 * instance as usize + 3,
        Fact::ModeIs { instance, .. } => states + 6 * instance as usize + 4,
        Fact::ModeWas { instance, .. } => states + 6 * instance as usize + 5,
    }
}

// How many places there are.
fn place_count(app: &App) -> usize {
    let signals = app.signal_count() as usize;
    let steps = app.step_count() as usize;
    2 * signals + 48 * steps + 6 * app.instance_count() as usize
}

// Whether two things that a guard can ask are the same.
fn is_same_ask(a: Ask, b: Ask) -> bool
    ensures { result ≡ true → a ≡ b }
{
    match (a, b) {
        (Ask::Pin(i), Ask::Pin(j)) => i == j,
        (Ask::Edge, Ask::Edge) => true,
        (Ask::Held, Ask::Held) => true,
        (Ask::Rise, Ask::Rise) => true,
        (Ask::Elapsed, Ask::Elapsed) => true,
        (Ask::NoMode, Ask::NoMode) => true,
        (Ask::OneMode, Ask::OneMode) => true,
        (Ask::ManyModes, Ask::ManyModes) => true,
        (Ask::LatchedMode, Ask::LatchedMode) => true,
        _ => false,
    }
}

// Whether two facts are the same, and of an instance.
fn is_same_state(a: Fact, b: Fact) -> bool
    ensures { result ≡ true → a ≡ b }
{
    match (a, b) {
        (
            Fact::StateIs { instance, code },
            Fact::StateIs {
                instance: other,
                code: same,
            },
        ) => instance == other && code == same,
        (
            Fact::StateWas { instance, code },
            Fact::StateWas {
                instance: other,
                code: same,
            },
        ) => instance == other && code == same,
        (
            Fact::ResetWas { instance, value },
            Fact::ResetWas {
                instance: other,
                value: same,
            },
        ) => instance == other && value == same,
        (
            Fact::AuxiliaryWas { instance, value },
            Fact::AuxiliaryWas {
                instance: other,
                value: same,
            },
        ) => instance == other && value == same,
        (
            Fact::ModeIs { instance, mode },
            Fact::ModeIs {
                instance: other,
                mode: same,
            },
        ) => instance == other && mode == same,
        (
            Fact::ModeWas { instance, mode },
            Fact::ModeWas {
                instance: other,
                mode: same,
            },
        ) => instance == other && mode == same,
        _ => false,
    }
}

// Whether two facts are the same.
fn is_same(a: Fact, b: Fact) -> bool
    ensures { result ≡ true → a ≡ b }
{
    match (a, b) {
        (
            Fact::SignalIs { signal, value },
            Fact::SignalIs {
                signal: other,
                value: same,
            },
        ) => signal == other && value == same,
        (
            Fact::SignalWas { signal, value },
            Fact::SignalWas {
                signal: other,
                value: same,
            },
        ) => signal == other && value == same,
        (
            Fact::PinIs { step, pin, value },
            Fact::PinIs {
                step: other,
                pin: at,
                value: same,
            },
        ) => step == other && pin == at && value == same,
        (
            Fact::AskIs { step, ask, value },
            Fact::AskIs {
                step: other,
                ask: what,
                value: same,
            },
        ) => step == other && is_same_ask(ask, what) && value == same,
        _ => is_same_state(a, b),
    }
}

// The number of a fact, if it is told at its place.
fn number_of(facts: &[Fact], numbers: &[u32], place: usize, fact: Fact) -> Option<u32>
    ensures { IfSome result (λ n. slice_get facts.now n ≡ Some fact) }
{
    if place >= numbers.len() {
        return None;
    }
    let n = numbers[place];
    if (n as usize) < facts.len() && is_same(facts[n as usize], fact) {
        Some(n)
    } else {
        None
    }
}

// Tells a fact, unless it is told, and answers its number.
fn tell(app: &App, facts: &mut Vec<Fact>, numbers: &mut [u32], fact: Fact) -> Result<u32, Memory>
    ensures { IfOk result (λ n. Enters facts.old.items facts.new.items fact n) }
{
    let place = place_of(app, fact);
    if let Some(n) = number_of(facts.as_slice(), numbers, place, fact) {
        return Ok(n);
    }
    let Ok(n) = u32::try_from(facts.len()) else {
        return Err(Memory);
    };
    facts.push(fact)?;
    if place < numbers.len() {
        numbers[place] = n;
    }
    Ok(n)
}

// Tells these facts, and answers their numbers.
fn tell_all(
    alloc: Global,
    app: &App,
    facts: &mut Vec<Fact>,
    numbers: &mut [u32],
    given: &[Fact],
) -> Result<Reasons, Memory>
    ensures { IfOk result (λ r. EntersAll facts.old.items facts.new.items (length given.now) given.now r.facts.items) }
{
    let mut told = Vec::with_capacity(alloc, given.len())?;
    for fact in given {
        told.push(tell(app, facts, numbers, *fact)?)?;
    }
    Ok(Reasons { facts: told })
}

// The fact with a number.
fn fact_at(facts: &[Fact], n: u32) -> Fact
    requires { n < length facts.now }
    ensures { slice_get facts.now n ≡ Some result }
{
    facts[n as usize]
}

/// Why these facts of a scan are so: they are told, and each fact that is told is a leaf or rests on others that are
/// told. It takes time linear in the nodes of the expressions that are told, for each of them that of reading the
/// signals once.
///
/// `Err` comes only if memory runs out.
pub fn explain(
    alloc: Global,
    app: &App,
    roots: &[Fact],
    scene: &Scene<'_>,
) -> Result<Explanation, Memory>
    requires { IsSceneFor app.now scene.now }
    ensures told { IfOk result (IsTold roots.now) }
    ensures reasons { IfOk result (HasReasons app.now scene.entry.now) }
    ensures meant { IfOk result (IsMeantThere app.now scene.entry.now roots.now) }
{
    app.sound();
    let mut facts = Vec::new(alloc);
    let mut reasons = Vec::new(alloc);
    let mut numbers = vec![in alloc; 0u32; place_count(app)]?;
    tell_all(alloc, app, &mut facts, numbers.as_mut_slice(), roots)?;
    for n in 0..u32::MAX {
        if n as usize >= facts.len() {
            return Ok(Explanation { facts, reasons });
        }
        let fact = fact_at(facts.as_slice(), n);
        let given = facts_of(alloc, app, fact, scene)?;
        reasons.push(tell_all(
            alloc,
            app,
            &mut facts,
            numbers.as_mut_slice(),
            given.as_slice(),
        )?)?;
    }
    Err(Memory)
}
