// How large the flat source of a text is, by counts for each function block: no copy is walked.

ghost use Rattle.std.specs.Prelude.{◌≡◌, ◌<◌, ◌≤◌, ◌+◌, ◌^◌, ◌↔◌, List, IfOk, IsTrue, Some, map};
ghost use Rattle.std.specs.List.{sum_by};
ghost use Rattle.ps_names.specs.NameTables.{Indexes};
ghost use Rattle.ps_parser.specs.StatementView.{statement_tree};
ghost use Rattle.ps_derived.specs.Bodies.{first_declared};
ghost use Rattle.ps_derived.specs.Flat.{FlatBlock, block_flat};
ghost use Rattle.ps_derived.specs.Limits.{IsWithinLimits, counted_to, size_of};
ghost use Rattle.ps_derived.specs.Counting.{item_at, size_made, names_weight, declared_weight, call_weight};
ghost use Rattle.ps_derived.specs.Counting.{statement_weight};

use crate::declared::{Declared, copy_of};
use crate::interface::Interface;
use crate::library::Library;
use crate::limits::{MOST_BLOCKS, MOST_FLAT_NAMES, MOST_FLAT_STATEMENTS};
use crate::scope::Scope;
use ps_base::Memory;
use ps_names::Table;
use ps_parser::{Name, Part, Source, Statement};
use std::alloc::Global;

/// A function block's name, its number of inputs, and the numbers of declared names and of statements of its flat
/// source. A number that is over its limit is one more than the limit.
#[derive(Drop)]
pub struct BlockSize {
    pub name: Name,
    pub inputs: u32,
    pub names: u32,
    pub statements: u32,
}

// The sum of two counts, or one more than the limit where it is over it.
fn sum_to(limit: u32, a: u32, b: u32) -> u32
    requires { limit + 1 < 2 ^ 32 }
    ensures { result ≡ counted_to limit (a + b) }
{
    let sum = a as u64 + b as u64;
    if sum > limit as u64 {
        limit + 1
    } else {
        sum as u32
    }
}

// A number of items, or one more than the limit where it is over it.
fn counted_to(limit: u32, count: usize) -> u32
    requires { limit + 1 < 2 ^ 32 }
    ensures { result ≡ counted_to limit count }
{
    if count > limit as usize {
        limit + 1
    } else {
        count as u32
    }
}

// The place of the block of which a declaration makes an instance, among these blocks.
fn block_at(
    alloc: Global,
    sizes: &[BlockSize],
    table: &Table,
    declared: &Declared,
) -> Result<Option<usize>, Memory>
    requires { Indexes (λ s. s.name) table.now sizes.now }
    ensures { IfOk result (λ k. item_at sizes.now k ≡ size_made sizes.now (Some declared.now)) }
{
    match declared.part {
        Part::Input => Ok(None),
        Part::Output => Ok(None),
        Part::Local => table.place_of(alloc, &declared.ty),
    }
}

// How many declared names stand in the place of an instance of the block at a place, or of another name.
fn names_weight(sizes: &[BlockSize], at: Option<usize>) -> u32
    ensures { result ≡ names_weight (item_at sizes.now at) }
{
    match at {
        None => 1,
        Some(k) => { if k < sizes.len() { sizes[k].names } else { 1 } }
    }
}

// How many declared names the flat source of a body with these declarations has.
fn count_names(
    alloc: Global,
    sizes: &[BlockSize],
    table: &Table,
    declared: &[Declared],
) -> Result<u32, Memory>
    requires { Indexes (λ s. s.name) table.now sizes.now }
    ensures { IfOk result (λ n. n ≡ counted_to MOST_FLAT_NAMES (sum_by (declared_weight sizes.now) declared.now)) }
{
    let mut count = 0;
    for one in declared {
        let at = block_at(alloc, sizes, table, one)?;
        count = sum_to(MOST_FLAT_NAMES, count, names_weight(sizes, at));
    }
    Ok(count)
}

// How many statements stand in the place of a call of an instance of the block at a place, or of another call, and this
// many before.
fn count_call(sizes: &[BlockSize], at: Option<usize>, before: u32) -> u32
    ensures { result ≡ counted_to MOST_FLAT_STATEMENTS (before + call_weight (item_at sizes.now at)) }
{
    match at {
        None => sum_to(MOST_FLAT_STATEMENTS, before, 1),
        Some(k) => {
            if k < sizes.len() {
                let inputs = sum_to(MOST_FLAT_STATEMENTS, before, sizes[k].inputs);
                sum_to(MOST_FLAT_STATEMENTS, inputs, sizes[k].statements)
            } else {
                sum_to(MOST_FLAT_STATEMENTS, before, 1)
            }
        }
    }
}

// The function blocks that stand before a body, by their sizes, with their table.
#[derive(Clone, Copy)]
struct Blocks<'a> {
    sizes: &'a [BlockSize],
    table: &'a Table,
}

// The place of the block of which a name of the body is an instance, among the blocks before.
fn block_called(
    alloc: Global,
    blocks: &Blocks,
    scope: &Scope,
    name: &Name,
) -> Result<Option<usize>, Memory>
    requires { Indexes (λ s. s.name) blocks.now.table.now blocks.now.sizes.now }
    ensures { IfOk result (λ k. item_at blocks.now.sizes.now k ≡ size_made blocks.now.sizes.now (first_declared scope.now name.now)) }
{
    match scope.first(alloc, name)? {
        None => Ok(None),
        Some(declared) => block_at(alloc, blocks.sizes, blocks.table, declared),
    }
}

// How many statements stand in the place of a statement, and this many before.
fn count_statement(
    alloc: Global,
    blocks: &Blocks,
    scope: &Scope,
    statement: &Statement,
    before: u32,
) -> Result<u32, Memory>
    requires { Indexes (λ s. s.name) blocks.now.table.now blocks.now.sizes.now }
    ensures { IfOk result (λ n. n ≡ counted_to MOST_FLAT_STATEMENTS (before + statement_weight blocks.now.sizes.now scope.now (statement_tree statement.now))) }
{
    match statement {
        Statement::Assign(_, _) => Ok(sum_to(MOST_FLAT_STATEMENTS, before, 1)),
        Statement::Call(name, _) => {
            let at = block_called(alloc, blocks, scope, name)?;
            Ok(count_call(blocks.sizes, at, before))
        }
    }
}

// How many statements the flat source of a body with these statements has.
fn count_statements(
    alloc: Global,
    blocks: &Blocks,
    scope: &Scope,
    statements: &[Statement],
) -> Result<u32, Memory>
    requires { Indexes (λ s. s.name) blocks.now.table.now blocks.now.sizes.now }
    ensures { IfOk result (λ n. n ≡ counted_to MOST_FLAT_STATEMENTS (sum_by (statement_weight blocks.now.sizes.now scope.now) (map statement_tree statements.now))) }
{
    let mut count = 0;
    for statement in statements {
        count = count_statement(alloc, blocks, scope, statement, count)?;
    }
    Ok(count)
}

// The size of a body, where these blocks stand before it.
fn size_of(alloc: Global, blocks: &Blocks, source: &Source) -> Result<BlockSize, Memory>
    requires { Indexes (λ s. s.name) blocks.now.table.now blocks.now.sizes.now }
    ensures { IfOk result (λ size. (before : List FlatBlock) → blocks.now.sizes.now ≡ map size_of before → size ≡ size_of (block_flat before source.now)) }
{
    let interface = Interface::of(alloc, source)?;
    let scope = &interface.scope;
    Ok(BlockSize {
        name: copy_of(alloc, &source.name)?,
        inputs: counted_to(MOST_FLAT_STATEMENTS, interface.inputs.len()),
        names: count_names(alloc, blocks.sizes, blocks.table, scope.as_slice())?,
        statements: count_statements(alloc, blocks, scope, source.statements.as_slice())?,
    })
}

// Whether a size is within the limits of names and statements.
fn is_small(size: &BlockSize) -> bool
    ensures { IsTrue result ↔ ((size.now.names ≤ MOST_FLAT_NAMES) × (size.now.statements ≤ MOST_FLAT_STATEMENTS)) }
{
    if size.names > MOST_FLAT_NAMES {
        return false;
    }
    size.statements <= MOST_FLAT_STATEMENTS
}

/// Whether a text keeps the limits of rule B4: it has at most `MOST_BLOCKS` function blocks, and its flat source has at
/// most `MOST_FLAT_NAMES` declared names and `MOST_FLAT_STATEMENTS` statements.
///
/// Time and memory are linear in the text, however many copies the flat source has: each function block is counted
/// once.
pub fn is_within_limits(alloc: Global, library: &Library) -> Result<bool, Memory>
    ensures { IfOk result (λ b. IsTrue b ↔ IsWithinLimits library.now) }
{
    if library.blocks.len() > MOST_BLOCKS as usize {
        return Ok(false);
    }
    let mut sizes = Vec::new(alloc);
    let mut table = Table::new(alloc);
    for source in library.blocks.as_slice() {
        let before = Blocks {
            sizes: &sizes,
            table: &table,
        };
        let size = size_of(alloc, &before, source)?;
        table.enter(alloc, &size.name, sizes.len())?;
        sizes.push(size)?;
    }
    let before = Blocks {
        sizes: &sizes,
        table: &table,
    };
    let program = size_of(alloc, &before, &library.program)?;
    Ok(is_small(&program))
}
