// The offences of a source against the rules N.

use crate::adding::add;
use ps_base::{Memory, Refusal, Rule};
use ps_names::{Entry, Table, index, note_again};
use ps_parser::{Source, Statement};
use ps_resolve::{
    Names, calls, check_called, check_calls, check_driven, check_limits, check_statements,
    check_types, declared_names, note_called, note_target, read_names, targets,
};
use std::alloc::Global;
use std::slice::from_ref;

// Adds each declaration of a name that was declared before: N1.
fn add_again(alloc: Global, entries: &[Entry], list: &mut Vec<Refusal>) -> Result<(), Memory> {
    let mut names = Table::new(alloc);
    for entry in entries {
        let found = note_again(alloc, &mut names, Rule::N1, &entry.name, None)?;
        add(list, found)?;
    }
    Ok(())
}

// Adds each declared name whose type is none or does not fit: N3.
fn add_untyped(entries: &[Entry], list: &mut Vec<Refusal>) -> Result<(), Memory> {
    for entry in entries {
        add(list, check_types(from_ref(entry), None))?;
    }
    Ok(())
}

// Adds the first offence of each statement in the names that it uses: N2, N4, N6 and N12.
fn add_uses(
    alloc: Global,
    entries: &[Entry],
    statements: &[Statement],
    list: &mut Vec<Refusal>,
) -> Result<(), Memory> {
    let (table, _) = index(alloc, entries, None)?;
    let names = Names {
        table: &table,
        entries,
    };
    for statement in statements {
        let found = check_statements(alloc, &names, from_ref(statement), None)?;
        add(list, found)?;
    }
    Ok(())
}

// Adds the first pin of each call that it names twice: N5.
fn add_pins(
    alloc: Global,
    statements: &[Statement],
    list: &mut Vec<Refusal>,
) -> Result<(), Memory> {
    for statement in statements {
        let found = check_calls(alloc, from_ref(statement), None)?;
        add(list, found)?;
    }
    Ok(())
}

// Adds each second assignment: N7.
fn add_targets(
    alloc: Global,
    statements: &[Statement],
    list: &mut Vec<Refusal>,
) -> Result<(), Memory> {
    let mut targets = Table::new(alloc);
    for statement in statements {
        let found = note_target(alloc, &mut targets, statement, None)?;
        add(list, found)?;
    }
    Ok(())
}

// Adds each declared name that wants an assignment and has none: N8.
fn add_undriven(
    alloc: Global,
    entries: &[Entry],
    statements: &[Statement],
    list: &mut Vec<Refusal>,
) -> Result<(), Memory> {
    let (targets, _) = targets(alloc, statements, None)?;
    let reads = read_names(alloc, statements)?;
    for entry in entries {
        let found = check_driven(alloc, &targets, &reads, from_ref(entry), None)?;
        add(list, found)?;
    }
    Ok(())
}

// Adds each second call: N9.
fn add_calls(
    alloc: Global,
    statements: &[Statement],
    list: &mut Vec<Refusal>,
) -> Result<(), Memory> {
    let mut calls = Table::new(alloc);
    for statement in statements {
        let found = note_called(alloc, &mut calls, statement, None)?;
        add(list, found)?;
    }
    Ok(())
}

// Adds each instance that nothing calls: N10.
fn add_uncalled(
    alloc: Global,
    entries: &[Entry],
    statements: &[Statement],
    list: &mut Vec<Refusal>,
) -> Result<(), Memory> {
    let (calls, _) = calls(alloc, statements, None)?;
    for entry in entries {
        let found = check_called(alloc, &calls, from_ref(entry), None)?;
        add(list, found)?;
    }
    Ok(())
}

/// The offences of a source against the rules N1 to N12: of each declaration and of each statement the first against
/// each group of rules that is tried on it.  It takes time in proportion to the source.
pub fn offences_of_names(alloc: Global, source: &Source) -> Result<Vec<Refusal>, Memory> {
    let entries = declared_names(alloc, source.sections.as_slice())?;
    let statements = source.statements.as_slice();
    let mut list = Vec::new(alloc);
    add_again(alloc, &entries, &mut list)?;
    add_untyped(&entries, &mut list)?;
    add_uses(alloc, &entries, statements, &mut list)?;
    add_pins(alloc, statements, &mut list)?;
    add_targets(alloc, statements, &mut list)?;
    add_undriven(alloc, &entries, statements, &mut list)?;
    add_calls(alloc, statements, &mut list)?;
    add_uncalled(alloc, &entries, statements, &mut list)?;
    let large = check_limits(source.name.place, &entries, statements, None);
    add(&mut list, large)?;
    Ok(list)
}
