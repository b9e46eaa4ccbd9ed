// What declared names are.

use ps_base::Place;
use ps_model::{Kind, Ty};
use ps_parser::Name;

/// What the name of a type stands for: SAFEBOOL or BOOL, or a kind of function block.
#[derive(Clone, Copy)]
pub enum TypeNamed {
    Signal(Ty),
    Block(Kind),
}

/// What a declaration makes its name: a signal of a type in VAR_INPUT, VAR_OUTPUT or VAR, an instance of a kind in VAR,
/// or nothing where the type's name stands for nothing or does not fit the section.
#[derive(Clone, Copy)]
pub enum Sort {
    InputSignal(Ty),
    OutputSignal(Ty),
    LocalSignal(Ty),
    Instance(Kind),
    Nothing,
}

/// A declared name, the place of its type, and what the declaration makes it.
#[derive(Drop)]
pub struct Entry {
    pub name: Name,
    pub ty: Place,
    pub sort: Sort,
}
