// The steps of a network: assignments and calls.

use crate::driver::{make_room, note, step_noted};
use crate::expr::Expr;
use crate::node::{Node, write_nodes};
use ps_base::Memory;
use std::alloc::Global;
use std::marker::Model;

/// What stands at an input pin of a call.
#[derive(Drop)]
pub enum Arg {
    /// Nothing: the pin has its free value.
    Free,
    /// A literal of a Boolean pin.
    Lit(bool),
    /// A TIME literal in ms.
    Time(u32),
    /// A value of a Boolean pin.
    Value(Expr),
}

/// The arguments of a call, one for each input pin in the pin table's order, which contracts see as a list.
#[derive(Drop)]
pub struct Args {
    items: Vec<Arg>,
}

impl Model for Args {
    ghost use Rattle.std.specs.Prelude.{List, map};
    ghost use Rattle.std.specs.Coded.{codes};
    ghost use Rattle.ps_model.specs.FormulaCode.{formula_code};
    ghost use Rattle.ps_model.specs.Action.{Actual};
    ghost use Rattle.ps_model.specs.Args.{actual};

    ghost Value = { List Actual };

    ghost coded = { Prim.hlevel (codes, formula_code) };

    ghost view = { λ a. map actual a.items.items };
}

/// A step of a network.
#[derive(Drop)]
pub enum Step {
    /// A value is assigned to a signal.
    Assign {
        /// The number of the signal.
        target: u16,
        /// The value.
        value: Expr,
    },
    /// An instance is called.
    Call {
        /// The number of the instance.
        instance: u16,
        /// What stands at its input pins.
        args: Args,
    },
}

/// The steps in the order of the text, which contracts see as a list.
/// Beside them are kept the nodes of their values, the first step that assigns each signal and the first that calls
/// each instance, so that no reader of an application walks its expressions or its steps.
pub struct Steps {
    items: Vec<Step>,
    nodes: Vec<Node>,
    assigning: Vec<Option<usize>>,
    calling: Vec<Option<usize>>,
}

impl Drop for Steps {
    // One call for whoever owns one, in place of a walk through all that it holds.
    fn drop(self) {
        let Steps {
            items: _,
            nodes: _,
            assigning: _,
            calling: _,
        } = self;
    }
}

impl Model for Steps {
    ghost use Rattle.std.specs.Prelude.{List, map};
    ghost use Rattle.std.specs.Coded.{codes};
    ghost use Rattle.ps_model.specs.FormulaCode.{formula_code};
    ghost use Rattle.ps_model.specs.Action.{Action};

    ghost Value = { List Action };

    ghost coded = { Prim.hlevel (codes, formula_code) };

    ghost use Rattle.ps_model.specs.Steps.{action, KeepsBeside};

    ghost view = { λ s. map action s.items.items };

    ghost invariant = { λ s. KeepsBeside (map action s.items.items) s.nodes.items s.assigning.items s.calling.items };
}

impl Args {
    ghost use Rattle.std.specs.Prelude.{◌≡◌, [], ◌∷◌, ◌++◌, OnOk, ◌<◌, length, Some, slice_get};
    ghost use Rattle.ps_model.specs.Args.{actual};

    /// No arguments. It takes no memory.
    pub fn new(alloc: Global) -> Args
        ensures { result ≡ [] }
    {
        Args {
            items: Vec::new(alloc),
        }
    }

    /// One more argument at the end. `Err` comes only if memory runs out.
    pub fn push(&mut self, arg: Arg) -> Result<(), Memory>
        ensures { OnOk result (self.new ≡ self.old ++ actual arg ∷ []) }
    {
        self.items.push(arg)?;
        Ok(())
    }

    /// How many there are.
    pub fn len(&self) -> usize
        ensures { result ≡ length self.now }
    {
        self.items.len()
    }

    /// The argument at a place, counted from 0.
    pub fn at(&self, j: usize) -> &Arg
        requires { j < length self.now }
        ensures { slice_get self.now j ≡ Some (actual result.now) }
    {
        &self.items[j]
    }
}

impl Steps {
    ghost use Rattle.std.specs.Prelude.{◌≡◌, [], ◌∷◌, ◌++◌, OnOk, OnErr, ◌<◌, ◌≤◌, All, length, map, position, Some, slice_get};
    ghost use Rattle.ps_model.specs.FirstSteps.{is_assignment_to, is_call};
    ghost use Rattle.ps_model.specs.Steps.{action};
    ghost use Rattle.ps_model.specs.NodeList.{listed_of_steps};

    /// No steps. It takes no memory.
    pub fn new(alloc: Global) -> Steps
        ensures { result ≡ [] }
    {
        Steps {
            items: Vec::new(alloc),
            nodes: Vec::new(alloc),
            assigning: Vec::new(alloc),
            calling: Vec::new(alloc),
        }
    }

    /// One more step at the end. `Err` comes only if memory runs out, and then the steps are as before.
    pub fn push(&mut self, step: Step) -> Result<(), Memory>
        ensures pushed { OnOk result (self.new ≡ self.old ++ action step ∷ []) }
        ensures refused { OnErr result (self.new ≡ self.old) }
    {
        let place = self.items.len();
        self.items.push(step)?;
        match write_beside(
            &self.items[place],
            place,
            &mut self.nodes,
            &mut self.assigning,
            &mut self.calling,
        ) {
            Ok(()) => Ok(()),
            Err(wanting) => {
                self.items.truncate(place);
                Err(wanting)
            }
        }
    }

    /// How many there are.
    pub fn len(&self) -> usize
        ensures { result ≡ length self.now }
    {
        self.items.len()
    }

    /// The step at a place, counted from 0.
    pub fn at(&self, k: usize) -> &Step
        requires { k < length self.now }
        ensures { slice_get self.now k ≡ Some (action result.now) }
    {
        &self.items[k]
    }

    /// The nodes of all values as a list, in the order of steps and pins, each before its operands.
    pub fn nodes(&self) -> &[Node]
        ensures { result.now ≡ listed_of_steps self.now }
    {
        self.nodes.as_slice()
    }

    /// The first step that assigns to a signal, if one does.
    pub fn first_assigning(&self, signal: u16) -> Option<usize>
        ensures { result ≡ position (is_assignment_to signal) self.now }
    {
        step_noted(&self.assigning, signal)
    }

    /// The first step that calls an instance, if one does.
    pub fn first_calling(&self, instance: u16) -> Option<usize>
        ensures { result ≡ position (is_call instance) self.now }
    {
        step_noted(&self.calling, instance)
    }
}

ghost use Rattle.std.specs.Prelude.{◌≡◌, ℕ, ◌++◌, OnOk, OnErr, flat_map};
ghost use Rattle.ps_model.specs.FirstSteps.{step_noted, with_step, is_assignment_to, is_call, HasRoomFor};
ghost use Rattle.ps_model.specs.Args.{actual};
ghost use Rattle.ps_model.specs.Steps.{action};
ghost use Rattle.ps_model.specs.NodeList.{listed_at_pin, listed_of_step};

// Lists the nodes of an argument at the end.
fn write_arg(arg: &Arg, list: &mut Vec<Node>) -> Result<(), Memory>
    ensures { OnOk result (list.new.items ≡ list.old.items ++ listed_at_pin (actual arg.now)) }
{
    match arg {
        Arg::Value(e) => write_nodes(e, 0, list),
        _ => Ok(()),
    }
}

// Lists the nodes of the arguments of a call at the end.
fn write_args(args: &Args, list: &mut Vec<Node>) -> Result<(), Memory>
    ensures { OnOk result (list.new.items ≡ list.old.items ++ flat_map listed_at_pin args.now) }
{
    for j in 0..args.len() {
        write_arg(args.at(j), list)?;
    }
    Ok(())
}

// Lists the nodes of a step at the end.
fn write_step(step: &Step, list: &mut Vec<Node>) -> Result<(), Memory>
    ensures { OnOk result (list.new.items ≡ list.old.items ++ listed_of_step (action step.now)) }
{
    match step {
        Step::Assign { value, .. } => write_nodes(value, 0, list),
        Step::Call { args, .. } => write_args(args, list),
    }
}

// Makes room to note a step. What is noted stays, also if memory runs out.
fn make_room_for_step(
    step: &Step,
    assigning: &mut Vec<Option<usize>>,
    calling: &mut Vec<Option<usize>>,
) -> Result<(), Memory>
    ensures assigning_kept { (n : ℕ) → step_noted assigning.new.items n ≡ step_noted assigning.old.items n }
    ensures calling_kept { (n : ℕ) → step_noted calling.new.items n ≡ step_noted calling.old.items n }
    ensures room { OnOk result (HasRoomFor (action step.now) assigning.new.items calling.new.items) }
{
    match step {
        Step::Assign { target, .. } => make_room(assigning, *target),
        Step::Call { instance, .. } => make_room(calling, *instance),
    }
}

// Notes a step that stands after all that were noted: for the signal that it assigns, or the instance that it calls.
fn note_step(
    step: &Step,
    place: usize,
    assigning: &mut Vec<Option<usize>>,
    calling: &mut Vec<Option<usize>>,
)
    requires { HasRoomFor (action step.now) assigning.old.items calling.old.items }
    ensures assigning { (n : ℕ) → step_noted assigning.new.items n ≡ with_step (is_assignment_to n (action step.now)) place (step_noted assigning.old.items n) }
    ensures calling { (n : ℕ) → step_noted calling.new.items n ≡ with_step (is_call n (action step.now)) place (step_noted calling.old.items n) }
{
    match step {
        Step::Assign { target, .. } => note(assigning, *target, place),
        Step::Call { instance, .. } => note(calling, *instance, place),
    }
}

// Keeps beside the steps what one more at the end gives: its nodes, and its place as the first that assigns a signal or
// calls an instance. If memory runs out, what is kept stays.
fn write_beside(
    step: &Step,
    place: usize,
    list: &mut Vec<Node>,
    assigning: &mut Vec<Option<usize>>,
    calling: &mut Vec<Option<usize>>,
) -> Result<(), Memory>
    ensures listed { OnOk result (list.new.items ≡ list.old.items ++ listed_of_step (action step.now)) }
    ensures assigning { OnOk result ((n : ℕ) → step_noted assigning.new.items n ≡ with_step (is_assignment_to n (action step.now)) place (step_noted assigning.old.items n)) }
    ensures calling { OnOk result ((n : ℕ) → step_noted calling.new.items n ≡ with_step (is_call n (action step.now)) place (step_noted calling.old.items n)) }
    ensures list_kept { OnErr result (list.new.items ≡ list.old.items) }
    ensures assigning_kept { OnErr result ((n : ℕ) → step_noted assigning.new.items n ≡ step_noted assigning.old.items n) }
    ensures calling_kept { OnErr result ((n : ℕ) → step_noted calling.new.items n ≡ step_noted calling.old.items n) }
{
    let mut nodes = Vec::new(*list.allocator());
    write_step(step, &mut nodes)?;
    make_room_for_step(step, assigning, calling)?;
    list.extend_from_slice(&nodes)?;
    note_step(step, place, assigning, calling);
    Ok(())
}
