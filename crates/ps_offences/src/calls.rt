// Calls of derived instances: B3.

ghost use Rattle.std.specs.Prelude.{◌≡◌, List, [], IfOk, map};
ghost use Rattle.std.specs.List.{flat_map};
ghost use Rattle.std.specs.Option.{option_copied};
ghost use Rattle.ps_base.specs.declared.failing.Rule.TheVariants.{B3};
ghost use Rattle.ps_parser.specs.declared.name.Name.{Name};
ghost use Rattle.ps_parser.specs.Tree.{ArgumentTree};
ghost use Rattle.ps_parser.specs.ArgumentView.{argument_tree};
ghost use Rattle.ps_parser.specs.StatementView.{statement_tree};
ghost use Rattle.ps_names.specs.Offences.{noted};
ghost use Rattle.ps_names.specs.Rules.{repeated};
ghost use Rattle.ps_names.specs.Tables.{Has};
ghost use Rattle.ps_offences.specs.BlockRules.{misgiven, leaves_out, miscalled, miscalled_by};

use crate::uses::Body;
use ps_base::{Memory, Refusal, Rule};
use ps_derived::Interface;
use ps_names::{Table, note_again, note_if};
use ps_parser::{Argument, Name, Statement};
use std::alloc::Global;

// The pins that these arguments name. Notes those that are named twice.
fn pins_of(
    alloc: Global,
    arguments: &[Argument],
    found: Option<Refusal>,
) -> Result<(Table, Option<Refusal>), Memory>
    ensures table { IfOk result (λ r. Has r.0 (map (λ (a : ArgumentTree). a.pin) (map argument_tree arguments.now))) }
    ensures found { IfOk result (λ r. r.1 ≡ noted found (repeated B3 [] (map (λ (a : ArgumentTree). a.pin) (map argument_tree arguments.now)))) }
{
    let mut pins = Table::new(alloc);
    let mut found = found;
    for i in 0..arguments.len() {
        found = note_again(alloc, &mut pins, Rule::B3, &arguments[i].pin, found)?;
    }
    Ok((pins, found))
}

// Notes the arguments whose pin is no input of the function block.
fn check_inputs(
    alloc: Global,
    block: &Interface,
    arguments: &[Argument],
    found: Option<Refusal>,
) -> Result<Option<Refusal>, Memory>
    ensures { IfOk result (λ r. r ≡ noted found (flat_map (misgiven block.now) (map argument_tree arguments.now))) }
{
    let mut found = found;
    for argument in arguments {
        let is_input = block.declares_input(alloc, &argument.pin)?;
        found = note_if(found, !is_input, Rule::B3, argument.pin.place);
    }
    Ok(found)
}

// Whether some of these inputs is none of the pins. The search ends at the first that is none, so it takes no more
// steps than there are pins, and one.
fn leaves_out(alloc: Global, inputs: &[Name], pins: &Table) -> Result<bool, Memory>
    ensures { IfOk result (λ b. (ns : List Name) → Has pins.now ns → b ≡ leaves_out inputs.now ns) }
{
    for input in inputs {
        if pins.place_of(alloc, input)?.is_none() {
            return Ok(true);
        }
    }
    Ok(false)
}

// Notes what a call of this name breaks, where the name is an instance of this function block.
fn check_call(
    alloc: Global,
    name: &Name,
    arguments: &[Argument],
    block: Option<&Interface>,
    found: Option<Refusal>,
) -> Result<Option<Refusal>, Memory>
    ensures { IfOk result (λ r. r ≡ noted found (miscalled name.now (map argument_tree arguments.now) (option_copied block.entry))) }
{
    match block {
        None => Ok(found),
        Some(block) => {
            let (pins, found) = pins_of(alloc, arguments, found)?;
            let found = check_inputs(alloc, block, arguments, found)?;
            let lacks = leaves_out(alloc, block.inputs.as_slice(), &pins)?;
            Ok(note_if(found, lacks, Rule::B3, name.place))
        }
    }
}

// Notes what a statement breaks that is a call of a derived instance.
fn check_statement(
    alloc: Global,
    body: &Body,
    statement: &Statement,
    found: Option<Refusal>,
) -> Result<Option<Refusal>, Memory>
    ensures { IfOk result (λ r. r ≡ noted found (miscalled_by body.now.before.now body.now.scope.now (statement_tree statement.now))) }
{
    match statement {
        Statement::Assign(_, _) => Ok(found),
        Statement::Call(name, arguments) => {
            let block = body.before.derived_of(alloc, body.scope, name)?;
            check_call(alloc, name, arguments.as_slice(), block, found)
        }
    }
}

/// Notes calls of derived instances that name a pin twice, or one that is no input, or leave an input out (B3).
pub fn check_calls(
    alloc: Global,
    body: &Body,
    statements: &[Statement],
    found: Option<Refusal>,
) -> Result<Option<Refusal>, Memory>
    ensures { IfOk result (λ r. r ≡ noted found (flat_map (miscalled_by body.now.before.now body.now.scope.now) (map statement_tree statements.now))) }
{
    let mut found = found;
    for statement in statements {
        found = check_statement(alloc, body, statement, found)?;
    }
    Ok(found)
}
