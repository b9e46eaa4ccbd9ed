// Which limit a text passes, and how many were counted.

use crate::lines::narrow;
use crate::sizes::{TextSize, size_of};
use crate::sources::{library_of, source_of};
use crate::telling::Telling;
use ps_base::Memory;
use ps_base::limits::{MOST_INPUTS, MOST_INSTANCES, MOST_NODES, MOST_OUTPUTS, MOST_SIGNALS};
use ps_derived::Library;
use ps_model::{kind_named, output_count};
use ps_parser::{Declaration, Factor, Part, Product, Source, Statement, Sum};

// The most function blocks of a text, and the most names and statements of a text that is written out.
const MOST_BLOCKS: u32 = 64;

const MOST_NAMES: u32 = 4_000;

const MOST_STATEMENTS: u32 = 20_000;

// How many there are of all that has a limit.
#[derive(Clone, Copy)]
struct Counts {
    inputs: u32,
    outputs: u32,
    signals: u32,
    instances: u32,
    nodes: u32,
}

// Counts the names of a declaration.
fn count_names(counts: Counts, part: Part, declaration: &Declaration) -> Counts {
    let names = narrow(declaration.names.len());
    let kind = kind_named(declaration.ty.text.as_slice());
    let mut counts = counts;
    let each = match (part, kind) {
        (Part::Local, Some(kind)) => u32::from(output_count(kind)),
        _ => 1,
    };
    counts.signals = counts.signals.saturating_add(names.saturating_mul(each));
    match (part, kind) {
        (Part::Input, _) => counts.inputs = counts.inputs.saturating_add(names),
        (Part::Output, _) => counts.outputs = counts.outputs.saturating_add(names),
        (Part::Local, Some(_)) => counts.instances = counts.instances.saturating_add(names),
        (Part::Local, None) => (),
    }
    counts
}

// One more node, where two parts or more are joined.
fn joined(nodes: u32, parts: usize) -> u32 {
    if parts > 1 {
        nodes.saturating_add(1)
    } else {
        nodes
    }
}

// So many nodes, and those of a sum.
#[cycle(nodes)]
fn add_sum(nodes: u32, sum: &Sum) -> u32 {
    let mut nodes = joined(nodes, sum.products.items.len());
    'each: for product in &sum.products.items {
        nodes = add_product(nodes, product);
    }
    nodes
}

// So many nodes, and those of a product.
#[cycle(nodes)]
fn add_product(nodes: u32, product: &Product) -> u32 {
    let mut nodes = joined(nodes, product.factors.items.len());
    'each: for factor in &product.factors.items {
        nodes = add_factor(nodes, factor);
    }
    nodes
}

// So many nodes, and those of a factor.
#[cycle(nodes)]
fn add_factor(nodes: u32, factor: &Factor) -> u32 {
    match factor {
        Factor::Name(_) | Factor::Pin(_, _) => nodes.saturating_add(1),
        Factor::Lit(_, _) | Factor::Time(_, _) => nodes,
        Factor::Group(sum) => add_sum(nodes, sum),
    }
}

// So many nodes, and those of a statement.
fn add_statement(nodes: u32, statement: &Statement) -> u32 {
    match statement {
        Statement::Assign(_, value) => add_sum(nodes, value),
        Statement::Call(_, arguments) => {
            let mut nodes = nodes;
            for argument in arguments.as_slice() {
                nodes = add_sum(nodes, &argument.value);
            }
            nodes
        }
    }
}

// How many there are in a flat source.
fn counts_of(source: &Source) -> Counts {
    let mut counts = Counts {
        inputs: 0,
        outputs: 0,
        signals: 0,
        instances: 0,
        nodes: 0,
    };
    for section in source.sections.as_slice() {
        for declaration in section.declarations.as_slice() {
            counts = count_names(counts, section.part, declaration);
        }
    }
    for statement in source.statements.as_slice() {
        counts.nodes = add_statement(counts.nodes, statement);
    }
    counts
}

// A limit where it is passed: what it is of, how many were counted, and how many may be.
fn tell_limit(telling: &mut Telling, name: &[u8], count: u32, most: u32) {
    if count > most {
        if !telling.is_empty() {
            telling.add(b"; ");
        }
        telling.add(name);
        telling.add(b": ");
        telling.add_digits(count);
        telling.add(b", and at most ");
        telling.add_digits(most);
    }
}

// The limits of an application that are passed.
fn tell_counts(telling: &mut Telling, counts: Counts) {
    let most_inputs = u32::from(MOST_INPUTS);
    let most_outputs = u32::from(MOST_OUTPUTS);
    let most_signals = u32::from(MOST_SIGNALS);
    let most_instances = u32::from(MOST_INSTANCES);
    tell_limit(telling, b"inputs", counts.inputs, most_inputs);
    tell_limit(telling, b"outputs", counts.outputs, most_outputs);
    let signals = b"signals with the outputs of instances";
    tell_limit(telling, signals, counts.signals, most_signals);
    tell_limit(telling, b"instances", counts.instances, most_instances);
    tell_limit(telling, b"nodes of expressions", counts.nodes, MOST_NODES);
}

/// Which of the five limits of rule N11 the application of a text passes, and how many were counted, with function
/// blocks written out; nothing where it has no flat source.
pub(crate) fn tell_limits(telling: &mut Telling, text: &[u8]) {
    if let Some(source) = telling.found(source_of(telling.alloc(), text)) {
        tell_counts(telling, counts_of(&source));
    }
}

// The limits on a text that is written out where they are passed.
fn tell_sizes(telling: &mut Telling, size: TextSize) {
    let names = b"names with function blocks written out";
    tell_limit(telling, names, size.names, MOST_NAMES);
    let statements = b"statements with function blocks written out";
    tell_limit(telling, statements, size.statements, MOST_STATEMENTS);
}

// The limits of rule B4 that these function blocks and this program pass.
fn tell_library(telling: &mut Telling, library: &Library) {
    let count = narrow(library.blocks.len());
    if count > MOST_BLOCKS {
        tell_limit(telling, b"function blocks", count, MOST_BLOCKS);
    } else {
        match size_of(telling.alloc(), library) {
            Ok(size) => tell_sizes(telling, size),
            Err(Memory) => telling.spoil(),
        }
    }
}

/// Which of the limits of rule B4 a text passes, and how many were counted: function blocks; and where these are not
/// too many, names and statements with function blocks written out. Nothing where a rule L or P refuses the text.
pub(crate) fn tell_blocks(telling: &mut Telling, text: &[u8]) {
    if let Some(library) = telling.found(library_of(telling.alloc(), text)) {
        tell_library(telling, &library);
    }
}
