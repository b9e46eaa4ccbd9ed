// Function blocks that are laid flat, each over those that stand before it.

ghost use Rattle.std.specs.Prelude.{◌≡◌, ◌∷◌, ◌++◌, ◌<◌, [], IfOk, IfSome, length, slice_get, take};
ghost use Rattle.std.specs.Option.{option_map, option_copied};
ghost use Rattle.ps_derived.specs.Bodies.{inputs};
ghost use Rattle.ps_derived.specs.Flat.{block_named, instance_of};
ghost use Rattle.ps_flatten.specs.Laying.{block_seen, blocks_seen, kept_seen, instance_seen, IsKept};

use ps_base::Memory;
use ps_derived::{Interface, Scope};
use ps_names::Table;
use ps_parser::{Declaration, Name, Part, Statement};
use std::alloc::Global;
use std::marker::Model;

/// What stands in the place of a declaration: one without derived instances, or what a copy of a function block
/// declares. The function block is given by its place in the text, and the name is that of the instance.
#[derive(Drop)]
pub enum DeclarationPiece {
    Own(Declaration),
    Copy(Name, usize),
}

/// What stands in the place of a statement: one without derived instances, or the statements of a copy of a function
/// block. The function block is given by its place in the text, and the name is that of the instance.
#[derive(Drop)]
pub enum StatementPiece {
    Own(Statement),
    Copy(Name, usize),
}

/// A function block: what bodies see of it, and what it has in the place of its declarations, in the order of a copy,
/// and of its statements.
pub struct Laid {
    pub interface: Interface,
    pub declarations: Vec<DeclarationPiece>,
    pub statements: Vec<StatementPiece>,
}

impl Drop for Laid {
    // One call for whoever owns one, in place of a walk through all that it holds.
    fn drop(self) {
        let Laid {
            interface: _,
            declarations: _,
            statements: _,
        } = self;
    }
}

/// Function blocks in the order of the text, found by their names. Contracts see them as a list.
pub struct Laids {
    items: Vec<Laid>,
    table: Table,
}

impl Drop for Laids {
    // One call for whoever owns one, in place of a walk through all that it holds.
    fn drop(self) {
        let Laids { items: _, table: _ } = self;
    }
}

impl Model for Laids {
    ghost use Rattle.std.specs.Prelude.{List};
    ghost use Rattle.std.specs.Coded.{codes};
    ghost use Rattle.ps_parser.specs.TreeCode.{sum_code};
    ghost use Rattle.ps_parser.specs.contracts.expression.Sum as sum;
    ghost use Rattle.ps_flatten.specs.declared.laid.Laid.{Laid};

    ghost Value = { List Laid };

    ghost coded = { Prim.hlevel (codes, sum_code, sum.the_row.coded) };

    ghost use Rattle.ps_names.specs.NameTables.{Indexes};

    ghost view = { λ s. s.items.items };

    ghost use Rattle.ps_flatten.specs.Laying.{KnowInputs};

    ghost invariant = { λ s. Indexes (λ b. b.interface.name) s.table s.items.items × KnowInputs s.items.items };
}

/// A function block with its place in the text.
#[derive(Clone, Copy)]
pub struct Kept<'a> {
    pub place: usize,
    pub laid: &'a Laid,
}

/// A derived instance: its name as it is declared, and its function block.
#[derive(Clone, Copy)]
pub struct Instance<'a> {
    pub name: &'a Name,
    pub block: Kept<'a>,
}

/// A body's declared names, and the function blocks that stand before it.
#[derive(Clone, Copy)]
pub struct Body<'a> {
    pub scope: &'a Scope,
    pub blocks: &'a Laids,
}

impl Laids {
    /// No function blocks. It takes no memory.
    pub fn new(alloc: Global) -> Laids
        ensures { result ≡ [] }
    {
        Laids {
            items: Vec::new(alloc),
            table: Table::new(alloc),
        }
    }

    /// These function blocks with one more at the end.
    pub fn with(self, alloc: Global, laid: Laid) -> Result<Laids, Memory>
        requires { laid.interface.inputs ≡ inputs laid.interface.scope }
        ensures { IfOk result (λ s. s ≡ self ++ laid ∷ []) }
    {
        let Laids {
            mut items,
            mut table,
        } = self;
        table.enter(alloc, &laid.interface.name, items.len())?;
        items.push(laid)?;
        Ok(Laids { items, table })
    }

    /// How many there are.
    pub fn len(&self) -> usize
        ensures { result ≡ length self.now }
    {
        self.items.len()
    }

    /// The function block at a place, where this is one of the first `limit`.
    pub fn before(&self, limit: usize, place: usize) -> Option<&Laid>
        ensures within { IfSome result (λ _. place < limit) }
        ensures seen { option_map (block_seen (take place (blocks_seen self.now))) (option_copied result)
            ≡ slice_get (take limit (blocks_seen self.now)) place }
    {
        if place < limit {
            self.items.get(place)
        } else {
            None
        }
    }

    /// The first function block with a name, without letter case.
    pub fn named(&self, alloc: Global, name: &Name) -> Result<Option<Kept>, Memory>
        ensures kept { IfOk result (λ k. IfSome k (IsKept (blocks_seen self.now))) }
        ensures block { IfOk result (λ k. option_map (kept_seen (blocks_seen self.now)) k ≡ block_named (blocks_seen self.now) name.now) }
    {
        match self.table.place_of(alloc, name)? {
            None => Ok(None),
            Some(place) => {
                if place < self.items.len() {
                    Ok(Some(Kept {
                        place,
                        laid: &self.items[place],
                    }))
                } else {
                    Ok(None)
                }
            }
        }
    }
}

/// The derived instance that a name of a body is, by its first declaration.
pub fn instance_of<'a>(
    alloc: Global,
    body: &Body<'a>,
    name: &Name,
) -> Result<Option<Instance<'a>>, Memory>
    ensures kept { IfOk result (λ i. IfSome i (λ x. IsKept (blocks_seen body.now.blocks.now) x.block)) }
    ensures instance { IfOk result (λ i. option_map (instance_seen (blocks_seen body.now.blocks.now)) i
        ≡ instance_of (blocks_seen body.now.blocks.now) body.now.scope.now name.now) }
{
    match body.scope.first(alloc, name)? {
        None => Ok(None),
        Some(declared) => match declared.part {
            Part::Input => Ok(None),
            Part::Output => Ok(None),
            Part::Local => match body.blocks.named(alloc, &declared.ty)? {
                None => Ok(None),
                Some(block) => Ok(Some(Instance {
                    name: &declared.name,
                    block,
                })),
            },
        },
    }
}
