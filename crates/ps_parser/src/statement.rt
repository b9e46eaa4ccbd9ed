// Statements: assignments and calls.

ghost use Rattle.std.specs.Prelude.{◌≡◌, ◌<◌, [], ◌∷◌, ◌++◌, OnOk, length, map, IfSome, Some, slice_get};
ghost use Rattle.ps_parser.specs.ArgumentView.{argument_tree};
ghost use Rattle.ps_parser.specs.StatementView.{statement_tree};
ghost use Rattle.ps_parser.specs.Places.{target_place, statement_place, pin_place, pin_place_in};

use crate::expression::Sum;
use crate::name::Name;
use ps_base::{Memory, Place};
use std::alloc::Global;
use std::marker::Model;

/// A pin of a call with its value.
#[derive(Drop)]
pub struct Argument {
    pub pin: Name,
    pub value: Sum,
}

/// Arguments in order, which contracts see as a list of trees.
#[derive(Drop)]
pub struct Arguments {
    items: Vec<Argument>,
}

/// What an assignment assigns: a name, or a name after the name of an instance and a dot.
#[derive(Drop)]
pub enum Target {
    Name(Name),
    Pin(Name, Name),
}

/// A statement, which is one step: an assignment, or a call of an instance.
#[derive(Drop)]
pub enum Statement {
    Assign(Target, Sum),
    Call(Name, Arguments),
}

/// Statements in order, which contracts see as a list of trees.
#[derive(Drop)]
pub struct Statements {
    items: Vec<Statement>,
}

impl Model for Arguments {
    ghost use Rattle.std.specs.Prelude.{List, map};
    ghost use Rattle.std.specs.Coded.{codes};
    ghost use Rattle.ps_parser.specs.Tree.{ArgumentTree};
    ghost use Rattle.ps_parser.specs.TreeCode.{sum_code};

    ghost Value = { List ArgumentTree };

    ghost coded = { Prim.hlevel (codes, sum_code) };

    ghost use Rattle.ps_parser.specs.ArgumentView.{argument_tree};

    ghost view = { λ a. map argument_tree a.items.items };
}

impl Model for Statements {
    ghost use Rattle.std.specs.Prelude.{List, map};
    ghost use Rattle.std.specs.Coded.{codes};
    ghost use Rattle.ps_parser.specs.Tree.{StatementTree};
    ghost use Rattle.ps_parser.specs.TreeCode.{sum_code};

    ghost Value = { List StatementTree };

    ghost coded = { Prim.hlevel (codes, sum_code) };

    ghost use Rattle.ps_parser.specs.StatementView.{statement_tree};

    ghost view = { λ s. map statement_tree s.items.items };
}

impl Arguments {
    /// No arguments. It takes no memory.
    pub fn new(alloc: Global) -> Arguments
        ensures { result ≡ [] }
    {
        Arguments {
            items: Vec::new(alloc),
        }
    }

    /// One more argument at the end.
    pub fn push(&mut self, argument: Argument) -> Result<(), Memory>
        ensures { OnOk result (self.new ≡ self.old ++ argument_tree argument ∷ []) }
    {
        self.items.push(argument)?;
        Ok(())
    }

    /// How many there are.
    pub fn len(&self) -> usize
        ensures { result ≡ length self.now }
    {
        self.items.len()
    }

    /// The argument at a place of the list.
    pub fn at(&self, i: usize) -> &Argument
        requires { i < length self.now }
        ensures { slice_get self.now i ≡ Some (argument_tree result.now) }
    {
        &self.items[i]
    }

    /// The place of the first argument whose pin has this name, without letter case.
    pub fn pin_place(&self, pin: &str) -> Option<Place>
        ensures { result ≡ pin_place pin.now self.now }
    {
        for argument in &self.items {
            let name = argument.pin.text.as_slice();
            if name.eq_ignore_ascii_case(pin.as_bytes()) {
                return Some(argument.pin.place);
            }
        }
        None
    }

    /// The arguments as a slice.
    pub fn as_slice(&self) -> &[Argument]
        ensures { map argument_tree result.now ≡ self.now }
    {
        self.items.as_slice()
    }
}

impl Target {
    /// The place of its first name.
    pub fn place(&self) -> Place
        ensures { result ≡ target_place self.now }
    {
        match self {
            Target::Name(name) => name.place,
            Target::Pin(name, _) => name.place,
        }
    }
}

impl Statement {
    /// The place of an assignment's target, or of the called name.
    pub fn place(&self) -> Place
        ensures { result ≡ statement_place (statement_tree self.now) }
    {
        match self {
            Statement::Assign(target, _) => target.place(),
            Statement::Call(name, _) => name.place,
        }
    }

    /// The place of the first mention of a pin, where this is a call that names it, without letter case.
    pub fn pin_place(&self, pin: &str) -> Option<Place>
        ensures { result ≡ pin_place_in pin.now (statement_tree self.now) }
    {
        match self {
            Statement::Assign(_, _) => None,
            Statement::Call(_, arguments) => arguments.pin_place(pin),
        }
    }
}

impl Statements {
    /// No statements. It takes no memory.
    pub fn new(alloc: Global) -> Statements
        ensures { result ≡ [] }
    {
        Statements {
            items: Vec::new(alloc),
        }
    }

    /// One more statement at the end.
    pub fn push(&mut self, statement: Statement) -> Result<(), Memory>
        ensures { OnOk result (self.new ≡ self.old ++ statement_tree statement ∷ []) }
    {
        self.items.push(statement)?;
        Ok(())
    }

    /// How many there are.
    pub fn len(&self) -> usize
        ensures { result ≡ length self.now }
    {
        self.items.len()
    }

    /// The statement at a place of the list.
    pub fn at(&self, i: usize) -> &Statement
        requires { i < length self.now }
        ensures { slice_get self.now i ≡ Some (statement_tree result.now) }
    {
        &self.items[i]
    }

    /// The statements as a slice.
    pub fn as_slice(&self) -> &[Statement]
        ensures { map statement_tree result.now ≡ self.now }
    {
        self.items.as_slice()
    }
}
