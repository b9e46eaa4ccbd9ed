// Copies of function blocks, written from the outermost instance inwards: each name is written once, with its whole
// path.

ghost use Rattle.std.specs.Prelude.{◌≡◌, ◌++◌, IfOk, OnOk, length, map, take};
ghost use Rattle.std.specs.List.{flat_map};
ghost use Rattle.ps_derived.specs.Dotted.{declaration_inside, statement_inside};
ghost use Rattle.ps_flatten.specs.Laying.{blocks_seen, declares, states};

use crate::inside::{declaration_inside, inside};
use crate::laid::{DeclarationPiece, Laids, StatementPiece};
use crate::renaming::statement_inside;
use ps_base::Memory;
use ps_parser::{Declarations, Name, Statements};
use std::alloc::Global;

// Writes what these pieces declare inside an instance, over the first `limit` function blocks.
#[cycle(declared)]
fn add_declared(
    alloc: Global,
    blocks: &Laids,
    limit: usize,
    pieces: &[DeclarationPiece],
    instance: &Name,
    written: &mut Declarations,
) -> Result<(), Memory>
    ensures { OnOk result (written.new
        ≡ written.old ++ map (declaration_inside instance.now) (flat_map (declares (take limit (blocks_seen blocks.now))) pieces.now)) }
{
    'each: for piece in pieces {
        add_one_declared(alloc, blocks, limit, piece, instance, written)?;
    }
    Ok(())
}

// Writes what a piece declares inside an instance.
#[cycle(declared)]
fn add_one_declared(
    alloc: Global,
    blocks: &Laids,
    limit: usize,
    piece: &DeclarationPiece,
    instance: &Name,
    written: &mut Declarations,
) -> Result<(), Memory>
    ensures { OnOk result (written.new
        ≡ written.old ++ map (declaration_inside instance.now) (declares (take limit (blocks_seen blocks.now)) piece.now)) }
{
    match piece {
        DeclarationPiece::Own(declaration) => {
            written.push(declaration_inside(alloc, instance, declaration)?)
        }
        DeclarationPiece::Copy(name, place) => match blocks.before(limit, *place) {
            None => Ok(()),
            Some(block) => {
                let path = inside(alloc, instance, name)?;
                add_declared(alloc, blocks, *place, &block.declarations, &path, written)
            }
        },
    }
}

// Writes the statements that these pieces stand for inside an instance, over the first `limit` function blocks.
#[cycle(stated)]
fn add_stated(
    alloc: Global,
    blocks: &Laids,
    limit: usize,
    pieces: &[StatementPiece],
    instance: &Name,
    written: &mut Statements,
) -> Result<(), Memory>
    ensures { OnOk result (written.new
        ≡ written.old ++ map (statement_inside instance.now) (flat_map (states (take limit (blocks_seen blocks.now))) pieces.now)) }
{
    'each: for piece in pieces {
        add_one_stated(alloc, blocks, limit, piece, instance, written)?;
    }
    Ok(())
}

// Writes the statements that a piece stands for inside an instance.
#[cycle(stated)]
fn add_one_stated(
    alloc: Global,
    blocks: &Laids,
    limit: usize,
    piece: &StatementPiece,
    instance: &Name,
    written: &mut Statements,
) -> Result<(), Memory>
    ensures { OnOk result (written.new
        ≡ written.old ++ map (statement_inside instance.now) (states (take limit (blocks_seen blocks.now)) piece.now)) }
{
    match piece {
        StatementPiece::Own(statement) => {
            written.push(statement_inside(alloc, instance, statement)?)
        }
        StatementPiece::Copy(name, place) => match blocks.before(limit, *place) {
            None => Ok(()),
            Some(block) => {
                let path = inside(alloc, instance, name)?;
                add_stated(alloc, blocks, *place, &block.statements, &path, written)
            }
        },
    }
}

// Writes what a piece of the program declares.
fn write_declared(
    alloc: Global,
    blocks: &Laids,
    piece: DeclarationPiece,
    written: &mut Declarations,
) -> Result<(), Memory>
    ensures { OnOk result (written.new ≡ written.old ++ declares (blocks_seen blocks.now) piece) }
{
    match piece {
        DeclarationPiece::Own(declaration) => written.push(declaration),
        DeclarationPiece::Copy(name, place) => match blocks.before(blocks.len(), place) {
            None => Ok(()),
            Some(block) => {
                add_declared(alloc, blocks, place, &block.declarations, &name, written)
            }
        },
    }
}

/// What these pieces of the program declare.
pub fn declared(
    alloc: Global,
    blocks: &Laids,
    pieces: Vec<DeclarationPiece>,
) -> Result<Declarations, Memory>
    ensures { IfOk result (λ ds. ds ≡ flat_map (declares (blocks_seen blocks.now)) pieces.items) }
{
    let mut written = Declarations::new(alloc);
    for piece in pieces {
        write_declared(alloc, blocks, piece, &mut written)?;
    }
    Ok(written)
}

// Writes the statements that a piece of the program stands for.
fn write_stated(
    alloc: Global,
    blocks: &Laids,
    piece: StatementPiece,
    written: &mut Statements,
) -> Result<(), Memory>
    ensures { OnOk result (written.new ≡ written.old ++ states (blocks_seen blocks.now) piece) }
{
    match piece {
        StatementPiece::Own(statement) => written.push(statement),
        StatementPiece::Copy(name, place) => match blocks.before(blocks.len(), place) {
            None => Ok(()),
            Some(block) => add_stated(alloc, blocks, place, &block.statements, &name, written),
        },
    }
}

/// The statements that these pieces of the program stand for.
pub fn stated(
    alloc: Global,
    blocks: &Laids,
    pieces: Vec<StatementPiece>,
) -> Result<Statements, Memory>
    ensures { IfOk result (λ ss. ss ≡ flat_map (states (blocks_seen blocks.now)) pieces.items) }
{
    let mut written = Statements::new(alloc);
    for piece in pieces {
        write_stated(alloc, blocks, piece, &mut written)?;
    }
    Ok(written)
}
