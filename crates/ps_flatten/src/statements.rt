// What stands in the place of the statements of a body.

ghost use Rattle.std.specs.Prelude.{◌≡◌, ◌++◌, IfOk, OnOk, map};
ghost use Rattle.std.specs.List.{flat_map, find};
ghost use Rattle.std.specs.Option.{option_map, option_copied};
ghost use Rattle.ps_parser.specs.declared.statement.Argument.{Argument};
ghost use Rattle.ps_parser.specs.ArgumentView.{argument_tree};
ghost use Rattle.ps_parser.specs.StatementView.{statement_tree};
ghost use Rattle.ps_derived.specs.Bodies.{same};
ghost use Rattle.ps_names.specs.NameTables.{Indexes};
ghost use Rattle.ps_derived.specs.Dotted.{inside, statement_inside};
ghost use Rattle.ps_derived.specs.Flat.{instance_of, input_assigned, call_flat, statement_flat};
ghost use Rattle.ps_flatten.specs.Laying.{IsKept, blocks_seen, instance_seen, states};

use crate::inside::inside;
use crate::laid::{Body, Instance, StatementPiece, instance_of};
use crate::values::{arguments_flat, sum_flat};
use ps_base::Memory;
use ps_derived::copy_of;
use ps_names::Table;
use ps_parser::{Argument, Name, Products, Statement, Sum, Target};
use std::alloc::Global;

// The table of the pins that these arguments name, each with the place of its first argument.
fn pins_of(alloc: Global, arguments: &[Argument]) -> Result<Table, Memory>
    ensures { IfOk result (λ t. Indexes (λ (a : Argument). a.pin) t arguments.now) }
{
    let mut pins = Table::new(alloc);
    for i in 0..arguments.len() {
        pins.enter(alloc, &arguments[i].pin, i)?;
    }
    Ok(pins)
}

// The first argument of a pin.
fn argument_of<'a>(
    alloc: Global,
    arguments: &'a [Argument],
    pins: &Table,
    pin: &Name,
) -> Result<Option<&'a Argument>, Memory>
    requires { Indexes (λ (a : Argument). a.pin) pins.now arguments.now }
    ensures { IfOk result (λ a. option_map argument_tree (option_copied a) ≡ find (λ a. same pin.now a.pin) (map argument_tree arguments.now)) }
{
    match pins.place_of(alloc, pin)? {
        None => Ok(None),
        Some(k) => {
            if k < arguments.len() {
                Ok(Some(&arguments[k]))
            } else {
                Ok(None)
            }
        }
    }
}

// The assignment of an input of an instance, at the place of its pin's name. Rule B3 leaves no input without an
// argument; such a one would be given nothing.
fn input_assigned(
    alloc: Global,
    body: &Body,
    target: Name,
    argument: Option<&Argument>,
) -> Result<Statement, Memory>
    ensures { IfOk result (λ s. statement_tree s ≡ input_assigned (blocks_seen body.now.blocks.now) body.now.scope.now target (option_map argument_tree (option_copied argument.entry))) }
{
    match argument {
        None => Ok(Statement::Assign(
            Target::Name(target),
            Sum {
                products: Products::new(alloc),
            },
        )),
        Some(argument) => {
            let target = Name {
                text: target.text,
                place: argument.pin.place,
            };
            let value = sum_flat(alloc, body, &argument.value)?;
            Ok(Statement::Assign(Target::Name(target), value))
        }
    }
}

// The assignments of an instance's inputs, in their order.
fn add_inputs(
    alloc: Global,
    body: &Body,
    instance: &Instance,
    arguments: &[Argument],
    pieces: &mut Vec<StatementPiece>,
) -> Result<(), Memory>
    ensures { OnOk result (flat_map (states (blocks_seen body.now.blocks.now)) pieces.new.items
        ≡ flat_map (states (blocks_seen body.now.blocks.now)) pieces.old.items
        ++ map (λ x. input_assigned (blocks_seen body.now.blocks.now) body.now.scope.now (inside instance.now.name.now x) (find (λ a. same x a.pin) (map argument_tree arguments.now)))
        instance.now.block.laid.now.interface.inputs) }
{
    let pins = pins_of(alloc, arguments)?;
    for input in instance.block.laid.interface.inputs.as_slice() {
        let target = inside(alloc, instance.name, input)?;
        let argument = argument_of(alloc, arguments, &pins, input)?;
        let one = input_assigned(alloc, body, target, argument)?;
        pieces.push(StatementPiece::Own(one))?;
    }
    Ok(())
}

// The statements of an instance's copy, where it has any.
fn add_copy(
    alloc: Global,
    body: &Body,
    instance: &Instance,
    pieces: &mut Vec<StatementPiece>,
) -> Result<(), Memory>
    requires { IsKept (blocks_seen body.now.blocks.now) instance.now.block }
    ensures { OnOk result (flat_map (states (blocks_seen body.now.blocks.now)) pieces.new.items
        ≡ flat_map (states (blocks_seen body.now.blocks.now)) pieces.old.items
        ++ map (statement_inside instance.now.name.now) (instance_seen (blocks_seen body.now.blocks.now) instance.now).block.flat.statements) }
{
    if instance.block.laid.statements.is_empty() {
        return Ok(());
    }
    let name = copy_of(alloc, instance.name)?;
    pieces.push(StatementPiece::Copy(name, instance.block.place))?;
    Ok(())
}

// What stands in the place of a call of a name that is this instance, if it is one.
fn add_call(
    alloc: Global,
    body: &Body,
    name: &Name,
    arguments: &[Argument],
    pieces: &mut Vec<StatementPiece>,
) -> Result<(), Memory>
    ensures { OnOk result (flat_map (states (blocks_seen body.now.blocks.now)) pieces.new.items
        ≡ flat_map (states (blocks_seen body.now.blocks.now)) pieces.old.items
        ++ call_flat (blocks_seen body.now.blocks.now) body.now.scope.now name.now (map argument_tree arguments.now)
        (instance_of (blocks_seen body.now.blocks.now) body.now.scope.now name.now)) }
{
    match instance_of(alloc, body, name)? {
        None => {
            let name = copy_of(alloc, name)?;
            let arguments = arguments_flat(alloc, body, arguments)?;
            pieces.push(StatementPiece::Own(Statement::Call(name, arguments)))?;
            Ok(())
        }
        Some(instance) => {
            add_inputs(alloc, body, &instance, arguments, pieces)?;
            add_copy(alloc, body, &instance, pieces)
        }
    }
}

// A target as it is.
fn target_of(alloc: Global, target: &Target) -> Result<Target, Memory>
    ensures { IfOk result (λ t. t ≡ target.now) }
{
    match target {
        Target::Name(n) => Ok(Target::Name(copy_of(alloc, n)?)),
        Target::Pin(n, q) => Ok(Target::Pin(copy_of(alloc, n)?, copy_of(alloc, q)?)),
    }
}

// What stands in the place of a statement.
fn add_statement(
    alloc: Global,
    body: &Body,
    statement: &Statement,
    pieces: &mut Vec<StatementPiece>,
) -> Result<(), Memory>
    ensures { OnOk result (flat_map (states (blocks_seen body.now.blocks.now)) pieces.new.items
        ≡ flat_map (states (blocks_seen body.now.blocks.now)) pieces.old.items
        ++ statement_flat (blocks_seen body.now.blocks.now) body.now.scope.now (statement_tree statement.now)) }
{
    match statement {
        Statement::Assign(target, value) => {
            let target = target_of(alloc, target)?;
            let value = sum_flat(alloc, body, value)?;
            pieces.push(StatementPiece::Own(Statement::Assign(target, value)))?;
            Ok(())
        }
        Statement::Call(name, arguments) => {
            add_call(alloc, body, name, arguments.as_slice(), pieces)
        }
    }
}

/// What stands in the place of the statements of a body.
pub fn statement_pieces(
    alloc: Global,
    body: &Body,
    statements: &[Statement],
) -> Result<Vec<StatementPiece>, Memory>
    ensures { IfOk result (λ pieces. flat_map (states (blocks_seen body.now.blocks.now)) pieces.items
        ≡ flat_map (statement_flat (blocks_seen body.now.blocks.now) body.now.scope.now) (map statement_tree statements.now)) }
{
    let mut pieces = Vec::new(alloc);
    for statement in statements {
        add_statement(alloc, body, statement, &mut pieces)?;
    }
    Ok(pieces)
}
