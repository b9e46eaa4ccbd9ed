// The declared names of a source, in order.

ghost use Rattle.std.specs.Prelude.{◌≡◌, ◌++◌, ◌∷◌, [], IfOk, OnOk, map};
ghost use Rattle.std.specs.List.{flat_map};
ghost use Rattle.ps_base.specs.LetterCase.{is_same_name};
ghost use Rattle.ps_names.specs.Names.{kind_called, type_named, sort_in, entry_of, declares, section_entries};

use ps_base::{Bytes, Memory};
use ps_model::{Kind, Ty, kind_named};
use ps_names::{Entry, Sort, TypeNamed};
use ps_parser::{Declaration, Name, Part, Section};
use std::alloc::Global;

/// Whether a name is this word but for letter case.
pub fn is_word(name: &Name, word: &[u8]) -> bool
    ensures { result ≡ is_same_name name.now.text word.now }
{
    name.text.as_slice().eq_ignore_ascii_case(word)
}

// The kind of function block with this name.
fn kind_of_name(name: &Name) -> Option<Kind>
    ensures { result ≡ kind_called name.now.text }
{
    kind_named(name.text.as_slice())
}

// What the name of a type stands for: SAFEBOOL, BOOL or a kind.
fn type_of_name(name: &Name) -> Option<TypeNamed>
    ensures { result ≡ type_named name.now.text }
{
    if is_word(name, b"SAFEBOOL") {
        Some(TypeNamed::Signal(Ty::Safe))
    } else if is_word(name, b"BOOL") {
        Some(TypeNamed::Signal(Ty::Bool))
    } else {
        match kind_of_name(name) {
            Some(kind) => Some(TypeNamed::Block(kind)),
            None => None,
        }
    }
}

// What a name declared in a section with a type is.
fn sort_in(part: Part, named: Option<TypeNamed>) -> Sort
    ensures { result ≡ sort_in part named }
{
    match (part, named) {
        (Part::Input, Some(TypeNamed::Signal(t))) => Sort::InputSignal(t),
        (Part::Output, Some(TypeNamed::Signal(t))) => Sort::OutputSignal(t),
        (Part::Local, Some(TypeNamed::Signal(t))) => Sort::LocalSignal(t),
        (Part::Local, Some(TypeNamed::Block(kind))) => Sort::Instance(kind),
        _ => Sort::Nothing,
    }
}

// The entry of a declared name.
fn entry_of(alloc: Global, part: Part, ty: &Name, name: &Name) -> Result<Entry, Memory>
    ensures { IfOk result (λ e. e ≡ entry_of part ty.now name.now) }
{
    let text = Bytes::from_slice(alloc, name.text.as_slice())?;
    let sort = sort_in(part, type_of_name(ty));
    Ok(Entry {
        name: Name {
            text,
            place: name.place,
        },
        ty: ty.place,
        sort,
    })
}

// The names of one more declaration.
fn add_declaration(
    alloc: Global,
    entries: &mut Vec<Entry>,
    part: Part,
    declaration: &Declaration,
) -> Result<(), Memory>
    ensures { OnOk result (entries.new.items ≡ entries.old.items ++ declares part declaration.now) }
{
    for name in declaration.names.as_slice() {
        let entry = entry_of(alloc, part, &declaration.ty, name)?;
        entries.push(entry)?;
    }
    Ok(())
}

// The names of one more section.
fn add_section(alloc: Global, entries: &mut Vec<Entry>, section: &Section) -> Result<(), Memory>
    ensures { OnOk result (entries.new.items ≡ entries.old.items ++ section_entries section.now) }
{
    for declaration in section.declarations.as_slice() {
        add_declaration(alloc, entries, section.part, declaration)?;
    }
    Ok(())
}

/// The names that these sections declare, in order, each with what it is.
pub fn declared_names(alloc: Global, sections: &[Section]) -> Result<Vec<Entry>, Memory>
    ensures { IfOk result (λ v. v.items ≡ flat_map section_entries sections.now) }
{
    let mut entries = Vec::new(alloc);
    for section in sections {
        add_section(alloc, &mut entries, section)?;
    }
    Ok(entries)
}
