// How large a text is with its function blocks written out.

use ps_base::Memory;
use ps_derived::{Declared, Library, Scope};
use ps_parser::{Name, Part, Source, Statement};
use std::alloc::Global;

/// How many inputs, declared names and statements a body has with its function blocks written out, as far as it goes
/// into 32 bits.
#[derive(Clone, Copy)]
pub(crate) struct TextSize {
    pub(crate) inputs: u32,
    pub(crate) names: u32,
    pub(crate) statements: u32,
}

// The size of nothing.
const NOTHING: TextSize = TextSize {
    inputs: 0,
    names: 0,
    statements: 0,
};

// The place of the first of these function blocks that has this name.
fn block_named(blocks: &[Source], name: &Name) -> Option<usize> {
    for (k, block) in blocks.iter().enumerate() {
        if block
            .name
            .text
            .as_slice()
            .eq_ignore_ascii_case(name.text.as_slice())
        {
            return Some(k);
        }
    }
    None
}

// The sizes of the function blocks before a body, and whether memory sufficed.
#[derive(Drop)]
struct Sizes {
    alloc: Global,
    list: Vec<TextSize>,
    is_whole: bool,
}

impl Sizes {
    // The size of one more function block.
    fn add(&mut self, size: TextSize) {
        if self.list.push(size).is_err() {
            self.is_whole = false;
        }
    }
}

// The size of the function block of which a declaration makes an instance, among these with their sizes.
fn size_made(before: &[Source], sizes: &[TextSize], declared: &Declared) -> Option<TextSize> {
    let place = match declared.part {
        Part::Local => block_named(before, &declared.ty),
        Part::Input | Part::Output => None,
    };
    match place {
        Some(k) if k < sizes.len() => Some(sizes[k]),
        _ => None,
    }
}

// A size with one more declared name, in whose place those of a function block of this size stand.
fn with_declared(size: TextSize, part: Part, made: Option<TextSize>) -> TextSize {
    let names = match made {
        Some(block) => block.names,
        None => 1,
    };
    let inputs = match part {
        Part::Input => 1,
        Part::Output | Part::Local => 0,
    };
    TextSize {
        inputs: size.inputs.saturating_add(inputs),
        names: size.names.saturating_add(names),
        statements: size.statements,
    }
}

// A size with one more statement, in whose place those of a function block of this size stand, after one for each of
// its inputs.
fn with_statement(size: TextSize, made: Option<TextSize>) -> TextSize {
    let statements = match made {
        Some(block) => block.inputs.saturating_add(block.statements),
        None => 1,
    };
    TextSize {
        statements: size.statements.saturating_add(statements),
        ..size
    }
}

// The size of the function block that a statement calls, among these with their sizes.
fn size_called(
    sizes: &mut Sizes,
    before: &[Source],
    scope: &Scope,
    statement: &Statement,
) -> Option<TextSize> {
    match statement {
        Statement::Assign(_, _) => None,
        Statement::Call(name, _) => match scope.first(sizes.alloc, name) {
            Ok(Some(declared)) => size_made(before, &sizes.list, declared),
            Ok(None) => None,
            Err(Memory) => {
                sizes.is_whole = false;
                None
            }
        },
    }
}

// The size of a body in which these names are declared, where these function blocks with their sizes stand before it.
fn size_in(sizes: &mut Sizes, before: &[Source], scope: &Scope, source: &Source) -> TextSize {
    let mut size = NOTHING;
    for declared in scope.as_slice() {
        size = with_declared(
            size,
            declared.part,
            size_made(before, &sizes.list, declared),
        );
    }
    for statement in source.statements.as_slice() {
        size = with_statement(size, size_called(sizes, before, scope, statement));
    }
    size
}

// The size of a body, where these function blocks with their sizes stand before it.
fn size_of_body(sizes: &mut Sizes, before: &[Source], source: &Source) -> TextSize {
    match Scope::of(sizes.alloc, source.sections.as_slice()) {
        Ok(scope) => size_in(sizes, before, &scope, source),
        Err(Memory) => {
            sizes.is_whole = false;
            NOTHING
        }
    }
}

/// The size of a text. Each function block is counted once, however often it is used; it takes time in proportion to
/// the text, and to the number of its function blocks, which is to be small.
pub(crate) fn size_of(alloc: Global, library: &Library) -> Result<TextSize, Memory> {
    let blocks = library.blocks.as_slice();
    let mut sizes = Sizes {
        alloc,
        list: Vec::new(alloc),
        is_whole: true,
    };
    for i in 0..blocks.len() {
        let size = size_of_body(&mut sizes, &blocks[..i], &blocks[i]);
        sizes.add(size);
    }
    let size = size_of_body(&mut sizes, blocks, &library.program);
    if sizes.is_whole {
        Ok(size)
    } else {
        Err(Memory)
    }
}
