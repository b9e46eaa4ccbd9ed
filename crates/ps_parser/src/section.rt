// The sections of declarations.

ghost use Rattle.std.specs.Prelude.{◌≡◌, ◌<◌, [], ◌∷◌, ◌++◌, OnOk, length, Some, slice_get};

use crate::name::{Name, Names};
use ps_base::Memory;
use std::alloc::Global;
use std::marker::Model;

/// What a section declares: VAR_INPUT, VAR_OUTPUT or VAR.
#[derive(Clone, Copy)]
pub enum Part {
    Input,
    Output,
    Local,
}

/// Names of one type, which is a name too.
#[derive(Drop)]
pub struct Declaration {
    pub names: Names,
    pub ty: Name,
}

/// Declarations in order, which contracts see as a list.
#[derive(Drop)]
pub struct Declarations {
    items: Vec<Declaration>,
}

/// The declarations between one of the words VAR_INPUT, VAR_OUTPUT and VAR, and END_VAR.
#[derive(Drop)]
pub struct Section {
    pub part: Part,
    pub declarations: Declarations,
}

/// Sections in order, which contracts see as a list.
#[derive(Drop)]
pub struct Sections {
    items: Vec<Section>,
}

impl Model for Declarations {
    ghost use Rattle.std.specs.Prelude.{List};
    ghost use Rattle.ps_parser.specs.declared.section.Declaration.{Declaration};

    ghost Value = { List Declaration };

    ghost view = { λ d. d.items.items };
}

impl Model for Sections {
    ghost use Rattle.std.specs.Prelude.{List};
    ghost use Rattle.ps_parser.specs.declared.section.Section.{Section};

    ghost Value = { List Section };

    ghost view = { λ s. s.items.items };
}

impl Declarations {
    /// No declarations. It takes no memory.
    pub fn new(alloc: Global) -> Declarations
        ensures { result ≡ [] }
    {
        Declarations {
            items: Vec::new(alloc),
        }
    }

    /// One more declaration at the end.
    pub fn push(&mut self, declaration: Declaration) -> Result<(), Memory>
        ensures { OnOk result (self.new ≡ self.old ++ declaration ∷ []) }
    {
        self.items.push(declaration)?;
        Ok(())
    }

    /// How many there are.
    pub fn len(&self) -> usize
        ensures { result ≡ length self.now }
    {
        self.items.len()
    }

    /// The declaration at a place of the list.
    pub fn at(&self, i: usize) -> &Declaration
        requires { i < length self.now }
        ensures { slice_get self.now i ≡ Some result.now }
    {
        &self.items[i]
    }

    /// The declarations as a slice.
    pub fn as_slice(&self) -> &[Declaration]
        ensures { result.now ≡ self.now }
    {
        self.items.as_slice()
    }
}

impl Sections {
    /// No sections. It takes no memory.
    pub fn new(alloc: Global) -> Sections
        ensures { result ≡ [] }
    {
        Sections {
            items: Vec::new(alloc),
        }
    }

    /// One more section at the end.
    pub fn push(&mut self, section: Section) -> Result<(), Memory>
        ensures { OnOk result (self.new ≡ self.old ++ section ∷ []) }
    {
        self.items.push(section)?;
        Ok(())
    }

    /// How many there are.
    pub fn len(&self) -> usize
        ensures { result ≡ length self.now }
    {
        self.items.len()
    }

    /// The section at a place of the list.
    pub fn at(&self, i: usize) -> &Section
        requires { i < length self.now }
        ensures { slice_get self.now i ≡ Some result.now }
    {
        &self.items[i]
    }

    /// The sections as a slice.
    pub fn as_slice(&self) -> &[Section]
        ensures { result.now ≡ self.now }
    {
        self.items.as_slice()
    }
}
