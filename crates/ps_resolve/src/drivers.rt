// The rules that look at all names of one use: N5, N7, N8, N9 and N10.

ghost use Rattle.std.specs.Prelude.{◌≡◌, List, [], ◌∷◌, ◌++◌, IfOk, OnOk, map};
ghost use Rattle.std.specs.List.{flat_map};
ghost use Rattle.ps_parser.specs.declared.name.Name.{Name};
ghost use Rattle.ps_parser.specs.ArgumentView.{argument_tree};
ghost use Rattle.ps_parser.specs.StatementView.{statement_tree};
ghost use Rattle.ps_base.specs.declared.failing.Rule.TheVariants.{N5, N7, N9};
ghost use Rattle.ps_names.specs.Offences.{noted};
ghost use Rattle.ps_names.specs.Uses.{assigned, called, named_pins};
ghost use Rattle.ps_names.specs.Rules.{repeated, pins_twice, assigned_twice, called_twice, untyped, undriven, uncalled};
ghost use Rattle.ps_names.specs.Tables.{Has};

use ps_base::{Memory, Refusal, Rule};
use ps_names::{Entry, Table, check_type, note_again, note_uncalled, note_undriven};
use ps_parser::{Argument, Name, Statement, Target};
use std::alloc::Global;

// ---- N5

// Notes the pins that these arguments name twice.
fn check_pins(
    alloc: Global,
    arguments: &[Argument],
    found: Option<Refusal>,
) -> Result<Option<Refusal>, Memory>
    ensures { IfOk result (λ r. r ≡ noted found (repeated N5 [] (map (λ a. a.pin) (map argument_tree arguments.now)))) }
{
    let mut pins = Table::new(alloc);
    let mut found = found;
    for i in 0..arguments.len() {
        found = note_again(alloc, &mut pins, Rule::N5, &arguments[i].pin, found)?;
    }
    Ok(found)
}

// Notes the pins that a statement names twice.
fn check_call(
    alloc: Global,
    statement: &Statement,
    found: Option<Refusal>,
) -> Result<Option<Refusal>, Memory>
    ensures { IfOk result (λ r. r ≡ noted found (pins_twice (statement_tree statement.now))) }
{
    match statement {
        Statement::Assign(_, _) => Ok(found),
        Statement::Call(_, arguments) => check_pins(alloc, arguments.as_slice(), found),
    }
}

/// Notes the pins that calls name twice (N5).
pub fn check_calls(
    alloc: Global,
    statements: &[Statement],
    found: Option<Refusal>,
) -> Result<Option<Refusal>, Memory>
    ensures { IfOk result (λ r. r ≡ noted found (flat_map pins_twice (map statement_tree statements.now))) }
{
    let mut found = found;
    for statement in statements {
        found = check_call(alloc, statement, found)?;
    }
    Ok(found)
}

// ---- N7 and N9

/// Enters the name that a statement assigns, and notes it where it was assigned before (N7).
pub fn note_target(
    alloc: Global,
    targets: &mut Table,
    statement: &Statement,
    found: Option<Refusal>,
) -> Result<Option<Refusal>, Memory>
    ensures found { IfOk result (λ r. (ns : List Name) → Has targets.old ns → r ≡ noted found (repeated N7 ns (assigned (statement_tree statement.now)))) }
    ensures table { OnOk result ((ns : List Name) → Has targets.old ns → Has targets.new (ns ++ assigned (statement_tree statement.now))) }
{
    match statement {
        Statement::Assign(Target::Name(n), _) => note_again(alloc, targets, Rule::N7, n, found),
        Statement::Assign(Target::Pin(_, _), _) => Ok(found),
        Statement::Call(_, _) => Ok(found),
    }
}

/// The names that statements assign. Notes second assignments (N7).
pub fn targets(
    alloc: Global,
    statements: &[Statement],
    found: Option<Refusal>,
) -> Result<(Table, Option<Refusal>), Memory>
    ensures table { IfOk result (λ r. Has r.0 (flat_map assigned (map statement_tree statements.now))) }
    ensures found { IfOk result (λ r. r.1 ≡ noted found (assigned_twice (map statement_tree statements.now))) }
{
    let mut table = Table::new(alloc);
    let mut found = found;
    for i in 0..statements.len() {
        found = note_target(alloc, &mut table, &statements[i], found)?;
    }
    Ok((table, found))
}

/// Enters the name that a statement calls, and notes it where it was called before (N9).
pub fn note_called(
    alloc: Global,
    calls: &mut Table,
    statement: &Statement,
    found: Option<Refusal>,
) -> Result<Option<Refusal>, Memory>
    ensures found { IfOk result (λ r. (ns : List Name) → Has calls.old ns → r ≡ noted found (repeated N9 ns (called (statement_tree statement.now)))) }
    ensures table { OnOk result ((ns : List Name) → Has calls.old ns → Has calls.new (ns ++ called (statement_tree statement.now))) }
{
    match statement {
        Statement::Assign(_, _) => Ok(found),
        Statement::Call(n, _) => note_again(alloc, calls, Rule::N9, n, found),
    }
}

/// The names that statements call. Notes second calls (N9).
pub fn calls(
    alloc: Global,
    statements: &[Statement],
    found: Option<Refusal>,
) -> Result<(Table, Option<Refusal>), Memory>
    ensures table { IfOk result (λ r. Has r.0 (flat_map called (map statement_tree statements.now))) }
    ensures found { IfOk result (λ r. r.1 ≡ noted found (called_twice (map statement_tree statements.now))) }
{
    let mut table = Table::new(alloc);
    let mut found = found;
    for i in 0..statements.len() {
        found = note_called(alloc, &mut table, &statements[i], found)?;
    }
    Ok((table, found))
}

// ---- N3, N8 and N10

/// Notes the types of declared names that are none or do not fit their section (N3).
pub fn check_types(entries: &[Entry], found: Option<Refusal>) -> Option<Refusal>
    ensures { result ≡ noted found (flat_map untyped entries.now) }
{
    let mut found = found;
    for e in entries {
        found = check_type(found, e.ty, e.sort);
    }
    found
}

/// Notes outputs, and locals that are read, to which nothing is assigned (N8).
pub fn check_driven(
    alloc: Global,
    targets: &Table,
    reads: &Table,
    entries: &[Entry],
    found: Option<Refusal>,
) -> Result<Option<Refusal>, Memory>
    ensures { IfOk result (λ r. (ts ns : List Name) → Has targets.now ts → Has reads.now ns → r ≡ noted found (flat_map (undriven ts ns) entries.now)) }
{
    let mut found = found;
    for e in entries {
        let is_assigned = targets.place_of(alloc, &e.name)?.is_some();
        let is_read = reads.place_of(alloc, &e.name)?.is_some();
        found = note_undriven(found, &e.name, e.sort, is_assigned, is_read);
    }
    Ok(found)
}

/// Notes instances that nothing calls (N10).
pub fn check_called(
    alloc: Global,
    calls: &Table,
    entries: &[Entry],
    found: Option<Refusal>,
) -> Result<Option<Refusal>, Memory>
    ensures { IfOk result (λ r. (ns : List Name) → Has calls.now ns → r ≡ noted found (flat_map (uncalled ns) entries.now)) }
{
    let mut found = found;
    for e in entries {
        let has_call = calls.place_of(alloc, &e.name)?.is_some();
        found = note_uncalled(found, &e.name, e.sort, has_call);
    }
    Ok(found)
}
