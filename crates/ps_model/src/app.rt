// An application: what an accepted text of networks stands for.

use crate::budget::{equation_rows_of_step, instructions_of_step};
use crate::driver::Driver;
use crate::kind::{Kind, Ty};
use crate::named::{Instances, Signal, Signals};
use crate::node::Node;
use crate::step::{Step, Steps};
use ps_base::Label;
use std::marker::Model;

/// An application: its name, the named inputs, outputs, locals and instances, and the steps.
///
/// Signals are numbered from 0: inputs, outputs, locals, and then for each instance its safe outputs,
/// Ready and Error. Instances and steps are numbered from 0 in their order.
pub struct App {
    name: Label,
    inputs: Signals,
    outputs: Signals,
    locals: Signals,
    instances: Instances,
    steps: Steps,
}

impl Drop for App {
    // One call for whoever owns one, in place of a walk through all that it holds.
    fn drop(self) {
        let App {
            name: _,
            inputs: _,
            outputs: _,
            locals: _,
            instances: _,
            steps: _,
        } = self;
    }
}

impl Model for App {
    ghost use Rattle.std.specs.Coded.{codes};
    ghost use Rattle.ps_model.specs.FormulaCode.{formula_code};
    ghost use Rattle.ps_model.specs.Network.{Network};

    ghost Value = { Network };

    ghost coded = { Prim.hlevel (codes, formula_code) };

    ghost use Rattle.ps_model.specs.Apps.{network, IsSoundInside};

    ghost view = { network };

    ghost invariant = { IsSoundInside };
}

impl App {
    ghost use Rattle.std.specs.Prelude.{◌≡◌, ◌<◌, ◌≤◌, length, map, Some, slice_get, slice_index_or};
    ghost use Rattle.ps_model.specs.Network.{made_of, no_signal, input_count, declared_count, declared_signals, instance_count, signal_count, signal_name, instance_name, kind_at, first_pin};
    ghost use Rattle.ps_model.specs.Sound.{IsSound};
    ghost use Rattle.ps_model.specs.Steps.{action};
    ghost use Rattle.ps_model.specs.Nodes.{app_nodes};
    ghost use Rattle.ps_model.specs.NodeList.{node_list};
    ghost use Rattle.ps_model.specs.Typing.{signal_type};
    ghost use Rattle.ps_model.specs.Drivers.{driver};
    ghost use Rattle.ps_model.specs.Budgets.{turns_a, turns_b};

    /// The application of these parts. It takes no memory.
    pub fn of(
        name: Label,
        inputs: Signals,
        outputs: Signals,
        locals: Signals,
        instances: Instances,
        steps: Steps,
    ) -> App
        requires { IsSound (made_of name inputs outputs locals instances steps) }
        ensures { result ≡ made_of name inputs outputs locals instances steps }
    {
        App {
            name,
            inputs,
            outputs,
            locals,
            instances,
            steps,
        }
    }

    /// What holds of each application. It does nothing when it runs.
    pub fn sound(&self)
        ensures { IsSound self.now }
    {
        let _ = &self.name;
    }

    /// The number of inputs.
    pub fn input_count(&self) -> u16
        ensures { result ≡ input_count self.now }
    {
        self.sound();
        self.inputs.len() as u16
    }

    /// The number of outputs.
    pub fn output_count(&self) -> u16
        ensures { result ≡ length self.now.outputs }
    {
        self.sound();
        self.outputs.len() as u16
    }

    /// The number of locals.
    pub fn local_count(&self) -> u16
        ensures { result ≡ length self.now.locals }
    {
        self.sound();
        self.locals.len() as u16
    }

    /// The number of inputs, outputs and locals.
    pub fn declared_count(&self) -> u16
        ensures { result ≡ declared_count self.now }
    {
        self.sound();
        (self.inputs.len() + self.outputs.len() + self.locals.len()) as u16
    }

    /// The number of instances.
    pub fn instance_count(&self) -> u16
        ensures { result ≡ instance_count self.now }
    {
        self.sound();
        self.instances.len() as u16
    }

    /// The number of signals, pin outputs among them.
    pub fn signal_count(&self) -> u16
        ensures { result ≡ signal_count self.now }
    {
        self.sound();
        self.declared_count() + self.instances.output_types().len() as u16
    }

    /// The number of steps.
    pub fn step_count(&self) -> u16
        ensures { result ≡ length self.now.steps }
    {
        self.sound();
        self.steps.len() as u16
    }

    /// The number of expression nodes.
    #[tactic(auto, using(crate::proofs::NodeLists::listed_each))]
    pub fn node_count(&self) -> u32
        ensures { result ≡ length (app_nodes self.now) }
    {
        self.sound();
        self.steps.nodes().len() as u32
    }

    /// The list of the expression nodes, in the order of steps and pins, each before its operands.
    pub fn nodes(&self) -> &[Node]
        ensures { result.now ≡ node_list self.now }
    {
        self.steps.nodes()
    }

    /// A step, by its number.
    pub fn step(&self, k: u16) -> &Step
        requires { k < length self.now.steps }
        ensures { slice_get self.now.steps k ≡ Some (action result.now) }
    {
        self.steps.at(k as usize)
    }

    // An input, output or local.
    fn declared(&self, s: u16) -> &Signal
        requires { s < declared_count self.now }
        ensures { result.now ≡ slice_index_or (declared_signals self.now) s no_signal }
    {
        let s = s as usize;
        let inputs = self.inputs.len();
        let outputs = self.outputs.len();
        if s < inputs {
            self.inputs.at(s)
        } else if s - inputs < outputs {
            self.outputs.at(s - inputs)
        } else {
            self.locals.at(s - inputs - outputs)
        }
    }

    /// The name of an input, output or local.
    pub fn signal_name(&self, s: u16) -> &str
        requires { s < declared_count self.now }
        ensures { result.now ≡ signal_name self.now s }
    {
        self.declared(s).name.as_str()
    }

    /// The name of an instance.
    pub fn instance_name(&self, i: u16) -> &str
        requires { i < instance_count self.now }
        ensures { result.now ≡ instance_name self.now i }
    {
        self.instances.at(i as usize).name.as_str()
    }

    /// The kind of an instance.
    pub fn instance_kind(&self, i: u16) -> Kind
        requires { i < instance_count self.now }
        ensures { result ≡ kind_at self.now i }
    {
        self.instances.at(i as usize).kind
    }

    /// The first output signal of an instance.
    pub fn first_pin(&self, i: u16) -> u16
        requires { i < instance_count self.now }
        ensures { result ≡ first_pin self.now i }
    {
        self.sound();
        self.declared_count() + self.instances.outputs_before(i as usize) as u16
    }

    /// The type of a signal: that of its declaration, or that of its pin.
    pub fn signal_type(&self, s: u16) -> Ty
        requires { s < signal_count self.now }
        ensures { result ≡ signal_type self.now s }
    {
        let declared = self.declared_count();
        if s < declared {
            self.declared(s).ty
        } else {
            self.instances.output_types()[(s - declared) as usize]
        }
    }

    /// What drives a signal: the step that assigns it, or the call of the instance whose output it is. None for an
    /// input, and for a local that no step assigns.
    pub fn driver(&self, s: u16) -> Option<Driver>
        requires { s < signal_count self.now }
        ensures { result ≡ driver self.now s }
    {
        self.sound();
        let declared = self.declared_count();
        if s < declared {
            let step = self.steps.first_assigning(s)? as u16;
            return Some(Driver::Assigned { step });
        }
        let place = (s - declared) as usize;
        let instance = self.instances.owner(place) as u16;
        let output = (place - self.instances.outputs_before(instance as usize)) as u16;
        let step = self.steps.first_calling(instance)? as u16;
        Some(Driver::Output {
            instance,
            output,
            step,
        })
    }

    /// The number of turns of channel A in a scan: the instructions of its code.
    pub fn turns_a(&self) -> u32
        ensures { result ≡ turns_a self.now }
    {
        self.sound();
        let mut turns = 1;
        for k in 0..self.step_count() {
            turns += instructions_of_step(self, self.step(k));
        }
        turns
    }

    /// The number of turns of channel B in a scan: the rows of its code.
    pub fn turns_b(&self) -> u32
        ensures { result ≡ turns_b self.now }
    {
        self.sound();
        let mut turns = 1;
        for k in 0..self.step_count() {
            turns += equation_rows_of_step(self, self.step(k));
        }
        turns
    }
}
