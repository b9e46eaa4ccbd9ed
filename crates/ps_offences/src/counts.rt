// How often derived instances are called and declared: B5.

ghost use Rattle.std.specs.Prelude.{◌≡◌, List, ◌++◌, IfOk, OnOk, map};
ghost use Rattle.std.specs.List.{flat_map};
ghost use Rattle.ps_parser.specs.declared.name.Name.{Name};
ghost use Rattle.ps_parser.specs.StatementView.{statement_tree};
ghost use Rattle.ps_names.specs.Offences.{noted};
ghost use Rattle.ps_names.specs.Uses.{called};
ghost use Rattle.ps_derived.specs.declared.declared.Declared.{Declared};
ghost use Rattle.ps_offences.specs.BlockRules.{is_once, called_wrongly};
ghost use Rattle.ps_offences.specs.Tallies.{Counts};

use crate::tally::Tally;
use crate::uses::Body;
use ps_base::{Memory, Refusal, Rule};
use ps_derived::{Declared, Interfaces};
use ps_names::note_if;
use ps_parser::{Name, Statement};
use std::alloc::Global;

// Counts the name that a statement calls.
fn count_called(alloc: Global, calls: &mut Tally, statement: &Statement) -> Result<(), Memory>
    ensures { OnOk result ((ns : List Name) → Counts calls.old ns → Counts calls.new (ns ++ called (statement_tree statement.now))) }
{
    match statement {
        Statement::Assign(_, _) => Ok(()),
        Statement::Call(name, _) => calls.count(alloc, name),
    }
}

/// How often names are called.
pub fn calls_of(alloc: Global, statements: &[Statement]) -> Result<Tally, Memory>
    ensures { IfOk result (λ t. Counts t (flat_map called (map statement_tree statements.now))) }
{
    let mut calls = Tally::new(alloc);
    for i in 0..statements.len() {
        count_called(alloc, &mut calls, &statements[i])?;
    }
    Ok(calls)
}

/// How often names are declared.
pub fn declared_of(alloc: Global, declared: &[Declared]) -> Result<Tally, Memory>
    ensures { IfOk result (λ t. Counts t (map (λ (d : Declared). d.name) declared.now)) }
{
    let mut names = Tally::new(alloc);
    for i in 0..declared.len() {
        names.count(alloc, &declared[i].name)?;
    }
    Ok(names)
}

/// Notes a derived instance that is not called exactly once, or whose name is declared again (B5).
pub fn check_count(
    alloc: Global,
    before: &Interfaces,
    calls: &Tally,
    names: &Tally,
    declared: &Declared,
    found: Option<Refusal>,
) -> Result<Option<Refusal>, Memory>
    ensures { IfOk result (λ r. (cs ns : List Name) → Counts calls.now cs → Counts names.now ns → r ≡ noted found (called_wrongly before.now cs ns declared.now)) }
{
    let is_derived = before.derived_by(alloc, declared)?.is_some();
    let is_called = calls.is_once(alloc, &declared.name)?;
    let is_declared = names.is_once(alloc, &declared.name)?;
    Ok(note_if(
        found,
        is_derived && !(is_called && is_declared),
        Rule::B5,
        declared.name.place,
    ))
}

/// Notes derived instances that are not called exactly once, or whose name is declared again in the body (B5).
pub fn check_counts(
    alloc: Global,
    body: &Body,
    statements: &[Statement],
    found: Option<Refusal>,
) -> Result<Option<Refusal>, Memory>
    ensures { IfOk result (λ r. r ≡ noted found (flat_map (called_wrongly body.now.before.now (flat_map called (map statement_tree statements.now)) (map (λ (d : Declared). d.name) body.now.scope.now)) body.now.scope.now)) }
{
    let calls = calls_of(alloc, statements)?;
    let names = declared_of(alloc, body.scope.as_slice())?;
    let mut found = found;
    for declared in body.scope.as_slice() {
        found = check_count(alloc, body.before, &calls, &names, declared, found)?;
    }
    Ok(found)
}
