// What an application declares: named signals and named instances.

use crate::kind::{Kind, Ty};
use ps_base::{Label, Memory};
use std::alloc::Global;
use std::marker::Model;

/// A named input, output or local.
#[derive(Drop)]
pub struct Signal {
    /// The name as it is declared.
    pub name: Label,
    /// SAFEBOOL or BOOL.
    pub ty: Ty,
}

/// Signals in order of declaration, which contracts see as a list. None has the type TIME.
#[derive(Drop)]
pub struct Signals {
    items: Vec<Signal>,
}

impl Model for Signals {
    ghost use Rattle.std.specs.Prelude.{List};
    ghost use Rattle.ps_model.specs.declared.named.Signal.{Signal};

    ghost Value = { List Signal };

    ghost use Rattle.ps_model.specs.Named.{AreBoolean};

    ghost view = { λ s. s.items.items };

    ghost invariant = { λ s. AreBoolean s.items.items };
}

/// A named instance of a kind of function block.
#[derive(Drop)]
pub struct Instance {
    /// The name as it is declared.
    pub name: Label,
    /// Which block it is.
    pub kind: Kind,
}

// An instance, with the number of pin outputs that stand before its own.
#[derive(Drop)]
struct Placed {
    instance: Instance,
    first: usize,
}

/// Instances in order of declaration, which contracts see as a list.
/// The numbers, the types and the instances of their outputs are kept beside them, so that no reader of an application
/// adds them up.
pub struct Instances {
    items: Vec<Placed>,
    types: Vec<Ty>,
    owners: Vec<usize>,
}

impl Drop for Instances {
    // One call for whoever owns one, in place of a walk through all that it holds.
    fn drop(self) {
        let Instances {
            items: _,
            types: _,
            owners: _,
        } = self;
    }
}

impl Model for Instances {
    ghost use Rattle.std.specs.Prelude.{List, map};
    ghost use Rattle.ps_model.specs.declared.named.Instance.{Instance};

    ghost Value = { List Instance };

    ghost use Rattle.ps_model.specs.Named.{instances_of, KeepsPlaces};

    ghost view = { λ s. instances_of s.items.items };

    ghost invariant = { λ s. KeepsPlaces s.items.items s.types.items s.owners.items };
}

ghost use Rattle.std.specs.Prelude.{◌≡◌, ◌++◌, OnErr, OnOk, length, replicate};
ghost use Rattle.ps_model.specs.Named.{output_types};

// The types of the outputs of a kind with one safe output.
static OF_ONE: [Ty; 3] = [Ty::Safe, Ty::Bool, Ty::Bool];

// The types of the outputs of a kind with two safe outputs.
static OF_TWO: [Ty; 4] = [Ty::Safe, Ty::Safe, Ty::Bool, Ty::Bool];

// The types of the outputs of SF_ModeSelector.
static OF_NINE: [Ty; 11] = [
    Ty::Safe,
    Ty::Safe,
    Ty::Safe,
    Ty::Safe,
    Ty::Safe,
    Ty::Safe,
    Ty::Safe,
    Ty::Safe,
    Ty::Safe,
    Ty::Bool,
    Ty::Bool,
];

// The types of a kind's outputs: its safe outputs, Ready and Error.
#[tactic(auto, unfolding(crate::specs::Named::output_types, crate::specs::Blocks::block))]
fn output_types(kind: Kind) -> &'static [Ty]
    ensures { result.now ≡ output_types kind }
{
    match kind {
        Kind::ModeSelector => &OF_NINE,
        Kind::GuardLocking | Kind::SafetyRequest => &OF_TWO,
        _ => &OF_ONE,
    }
}

// The types of the outputs of one more instance, and its number for each of them. If memory runs out all is as
// before.
fn push_outputs(
    types: &mut Vec<Ty>,
    owners: &mut Vec<usize>,
    kind: Kind,
    instance: usize,
) -> Result<(), Memory>
    ensures types { OnOk result (types.new.items ≡ types.old.items ++ output_types kind) }
    ensures owners { OnOk result (owners.new.items ≡ owners.old.items ++ replicate (length (output_types kind)) instance) }
    ensures types_kept { OnErr result (types.new.items ≡ types.old.items) }
    ensures owners_kept { OnErr result (owners.new.items ≡ owners.old.items) }
{
    let outputs = output_types(kind);
    let before = owners.len();
    owners.resize(before + outputs.len(), instance)?;
    if types.extend_from_slice(outputs).is_err() {
        owners.truncate(before);
        return Err(Memory);
    }
    Ok(())
}

impl Signals {
    ghost use Rattle.std.specs.Prelude.{◌≡◌, ◌≢◌, ◌<◌, [], ◌∷◌, ◌++◌, OnOk, Some, length, slice_get};
    ghost use Rattle.ps_model.specs.declared.kind.Ty.TheVariants.{Time};

    /// No signals. It takes no memory.
    pub fn new(alloc: Global) -> Signals
        ensures { result ≡ [] }
    {
        Signals {
            items: Vec::new(alloc),
        }
    }

    /// One more signal at the end. `Err` comes only if memory runs out.
    pub fn push(&mut self, signal: Signal) -> Result<(), Memory>
        requires { signal.ty ≢ Time }
        ensures { OnOk result (self.new ≡ self.old ++ signal ∷ []) }
    {
        self.items.push(signal)?;
        Ok(())
    }

    /// How many there are.
    pub fn len(&self) -> usize
        ensures { result ≡ length self.now }
    {
        self.items.len()
    }

    /// The signal at a place, counted from 0.
    pub fn at(&self, i: usize) -> &Signal
        requires { i < length self.now }
        ensures { slice_get self.now i ≡ Some result.now }
    {
        &self.items[i]
    }
}

impl Instances {
    ghost use Rattle.std.specs.Prelude.{◌≡◌, ◌<◌, [], ◌∷◌, ◌++◌, OnOk, OnErr, length, take, sum_by, flat_map, Some, slice_get, slice_index};
    ghost use Rattle.ps_model.specs.Blocks.{output_count};
    ghost use Rattle.ps_model.specs.Named.{pin_types, pin_owners};

    /// No instances. It takes no memory.
    pub fn new(alloc: Global) -> Instances
        ensures { result ≡ [] }
    {
        Instances {
            items: Vec::new(alloc),
            types: Vec::new(alloc),
            owners: Vec::new(alloc),
        }
    }

    /// One more instance at the end. `Err` comes only if memory runs out, and then the instances are as before.
    pub fn push(&mut self, instance: Instance) -> Result<(), Memory>
        ensures pushed { OnOk result (self.new ≡ self.old ++ instance ∷ []) }
        ensures refused { OnErr result (self.new ≡ self.old) }
    {
        let place = self.items.len();
        let kind = instance.kind;
        let first = self.types.len();
        self.items.push(Placed { instance, first })?;
        match push_outputs(&mut self.types, &mut self.owners, kind, place) {
            Ok(()) => Ok(()),
            Err(wanting) => {
                self.items.truncate(place);
                Err(wanting)
            }
        }
    }

    /// How many there are.
    pub fn len(&self) -> usize
        ensures { result ≡ length self.now }
    {
        self.items.len()
    }

    /// The instance at a place, counted from 0.
    pub fn at(&self, i: usize) -> &Instance
        requires { i < length self.now }
        ensures { slice_get self.now i ≡ Some result.now }
    {
        &self.items[i].instance
    }

    /// How many pin outputs stand before those of an instance.
    pub fn outputs_before(&self, i: usize) -> usize
        requires { i < length self.now }
        ensures { result ≡ sum_by (λ x. output_count x.kind) (take i self.now) }
    {
        self.items[i].first
    }

    /// The types of all pin outputs, in the order of their numbers.
    pub fn output_types(&self) -> &[Ty]
        ensures { result.now ≡ pin_types self.now }
    {
        self.types.as_slice()
    }

    /// The instance of a pin output, by the output's place among those of all instances.
    pub fn owner(&self, n: usize) -> usize
        requires { n < length (pin_types self.now) }
        ensures { result ≡ slice_index (pin_owners self.now) n }
    {
        self.owners[n]
    }
}
