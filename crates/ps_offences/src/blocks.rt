// The offences of a text against the rules B.

use crate::adding::add;
use crate::{
    Body, calls_of, check_calls, check_count, check_kinds, check_names, check_size, check_types,
    check_uses, declared_of,
};
use ps_base::{Memory, Refusal, Rule};
use ps_derived::{Interface, Interfaces, Library, Scope};
use ps_names::{Table, note_again};
use ps_parser::{Heads, Source, Statement};
use std::alloc::Global;
use std::slice::from_ref;

// Adds each function block whose name is that of one before it: B1.
fn add_again(alloc: Global, blocks: &[Source], list: &mut Vec<Refusal>) -> Result<(), Memory> {
    let mut names = Table::new(alloc);
    for block in blocks {
        let found = note_again(alloc, &mut names, Rule::B1, &block.name, None)?;
        add(list, found)?;
    }
    Ok(())
}

// Adds each function block whose name is that of a type of the language: B1.
fn add_kinds(blocks: &[Source], list: &mut Vec<Refusal>) -> Result<(), Memory> {
    for block in blocks {
        add(list, check_kinds(from_ref(block), None))?;
    }
    Ok(())
}

// Adds each declared name of a body whose type does not fit: B2.
fn add_types(
    alloc: Global,
    heads: Heads,
    names: &Table,
    body: &Body,
    list: &mut Vec<Refusal>,
) -> Result<(), Memory> {
    for declared in body.scope.as_slice() {
        let found = check_types(alloc, heads, names, body.before, from_ref(declared), None)?;
        add(list, found)?;
    }
    Ok(())
}

// Adds the first offence of each statement in what it reads and assigns after dots: B3.
fn add_uses(
    alloc: Global,
    body: &Body,
    statements: &[Statement],
    list: &mut Vec<Refusal>,
) -> Result<(), Memory> {
    for statement in statements {
        let found = check_uses(alloc, body, from_ref(statement), None)?;
        add(list, found)?;
    }
    Ok(())
}

// Adds the first offence of each call of an instance of a function block: B3.
fn add_calls(
    alloc: Global,
    body: &Body,
    statements: &[Statement],
    list: &mut Vec<Refusal>,
) -> Result<(), Memory> {
    for statement in statements {
        let found = check_calls(alloc, body, from_ref(statement), None)?;
        add(list, found)?;
    }
    Ok(())
}

// Adds each instance of a function block that is not called exactly once, or whose name is declared again: B5.
fn add_counts(
    alloc: Global,
    body: &Body,
    statements: &[Statement],
    list: &mut Vec<Refusal>,
) -> Result<(), Memory> {
    let calls = calls_of(alloc, statements)?;
    let names = declared_of(alloc, body.scope.as_slice())?;
    for declared in body.scope.as_slice() {
        let found = check_count(alloc, body.before, &calls, &names, declared, None)?;
        add(list, found)?;
    }
    Ok(())
}

// Adds the offences of a body: B2, B3 and B5.
fn add_body(
    alloc: Global,
    heads: Heads,
    names: &Table,
    before: &Interfaces,
    source: &Source,
    list: &mut Vec<Refusal>,
) -> Result<(), Memory> {
    let scope = Scope::of(alloc, source.sections.as_slice())?;
    let body = Body {
        scope: &scope,
        before,
    };
    let statements = source.statements.as_slice();
    add_types(alloc, heads, names, &body, list)?;
    add_uses(alloc, &body, statements, list)?;
    add_calls(alloc, &body, statements, list)?;
    add_counts(alloc, &body, statements, list)
}

// Adds the offences of function blocks, and gives what bodies see of them.
fn add_blocks(
    alloc: Global,
    names: &Table,
    blocks: &[Source],
    list: &mut Vec<Refusal>,
) -> Result<Interfaces, Memory> {
    let mut before = Interfaces::new(alloc);
    for block in blocks {
        add_body(alloc, Heads::Block, names, &before, block, list)?;
        let interface = Interface::of(alloc, block)?;
        before = before.with(alloc, interface)?;
    }
    Ok(before)
}

/// The offences of a text against the rules B1 to B5: of each function block's name, each declaration and each
/// statement the first against each group of rules that is tried on it.  It takes time in proportion to the text,
/// however often a function block is used.
pub fn offences_of_blocks(alloc: Global, library: &Library) -> Result<Vec<Refusal>, Memory> {
    let blocks = library.blocks.as_slice();
    let mut list = Vec::new(alloc);
    add_again(alloc, blocks, &mut list)?;
    add_kinds(blocks, &mut list)?;
    let (names, _) = check_names(alloc, blocks)?;
    let before = add_blocks(alloc, &names, blocks, &mut list)?;
    add_body(
        alloc,
        Heads::Program,
        &names,
        &before,
        &library.program,
        &mut list,
    )?;
    let large = check_size(alloc, library, None)?;
    add(&mut list, large)?;
    Ok(list)
}
