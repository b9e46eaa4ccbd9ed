// From a source to its application.

ghost use Rattle.std.specs.Prelude.{◌≡◌, ◌++◌, [], IfOk, map};
ghost use Rattle.std.specs.List.{flat_map};
ghost use Rattle.ps_parser.specs.StatementView.{statement_tree};
ghost use Rattle.ps_names.specs.Names.{entries};
ghost use Rattle.ps_names.specs.Offences.{noted, refused};
ghost use Rattle.ps_names.specs.Uses.{statement_uses, assigned, called, read_names};
ghost use Rattle.ps_names.specs.Rules.{declared_twice, untyped, broken_by, pins_twice, assigned_twice, undriven};
ghost use Rattle.ps_names.specs.Rules.{called_twice, uncalled, offences, offences_in};
ghost use Rattle.ps_names.specs.Stands.{network};
ghost use Rattle.ps_resolve.specs.Resolving.{Resolves};
ghost use Rattle.ps_names.specs.Tables.{IndexesDeclared};

use crate::declared::declared_names;
use crate::drivers::{calls, check_called, check_calls, check_driven, check_types, targets};
use crate::limits::check_limits;
use crate::numbers::{Numbering, numbers};
use crate::parts::{instances, label_of, signals};
use crate::reads::read_names;
use crate::steps::steps_of;
use crate::uses::{Names, check_statements};
use ps_base::{Fail, Memory, Place, Refusal};
use ps_model::App;
use ps_names::{Entry, Table, index};
use ps_parser::{Part, Source, Statement};
use std::alloc::Global;

// The table of declared names, and the first of what names, types, uses of names and pins break: N1 to N6 and N12.
fn check_names(
    alloc: Global,
    entries: &[Entry],
    statements: &[Statement],
) -> Result<(Table, Option<Refusal>), Memory>
    ensures table { IfOk result (λ r. IndexesDeclared r.0 entries.now) }
    ensures found { IfOk result (λ r. let ss = map statement_tree statements.now in
        r.1 ≡ refused (declared_twice entries.now ++ flat_map untyped entries.now ++ flat_map (broken_by entries.now) (flat_map statement_uses ss) ++ flat_map pins_twice ss)) }
{
    let (table, found) = index(alloc, entries, None)?;
    let found = check_types(entries, found);
    let names = Names {
        table: &table,
        entries,
    };
    let found = check_statements(alloc, &names, statements, found)?;
    let found = check_calls(alloc, statements, found)?;
    Ok((table, found))
}

// Notes second assignments, and what is not driven: N7 and N8.
fn note_drivers(
    alloc: Global,
    entries: &[Entry],
    statements: &[Statement],
    found: Option<Refusal>,
) -> Result<Option<Refusal>, Memory>
    ensures { IfOk result (λ r. let ss = map statement_tree statements.now in
        r ≡ noted (noted found (assigned_twice ss)) (flat_map (undriven (flat_map assigned ss) (read_names ss)) entries.now)) }
{
    let (targets, found) = targets(alloc, statements, found)?;
    let reads = read_names(alloc, statements)?;
    check_driven(alloc, &targets, &reads, entries, found)
}

// Notes second calls, and what is not called: N9 and N10.
fn note_calls(
    alloc: Global,
    entries: &[Entry],
    statements: &[Statement],
    found: Option<Refusal>,
) -> Result<Option<Refusal>, Memory>
    ensures { IfOk result (λ r. let ss = map statement_tree statements.now in
        r ≡ noted (noted found (called_twice ss)) (flat_map (uncalled (flat_map called ss)) entries.now)) }
{
    let (calls, found) = calls(alloc, statements, found)?;
    check_called(alloc, &calls, entries, found)
}

// The table of the declared names of a program whose name stands at this place, and the offence that a refusal names:
// the first by rule and then by place.
fn check(
    alloc: Global,
    place: Place,
    entries: &[Entry],
    statements: &[Statement],
) -> Result<(Table, Option<Refusal>), Memory>
    ensures table { IfOk result (λ r. IndexesDeclared r.0 entries.now) }
    ensures found { IfOk result (λ r. r.1 ≡ refused (offences_in place entries.now (map statement_tree statements.now))) }
{
    let (table, found) = check_names(alloc, entries, statements)?;
    let driven = note_drivers(alloc, entries, statements, found)?;
    let called = note_calls(alloc, entries, statements, driven)?;
    let all = check_limits(place, entries, statements, called);
    Ok((table, all))
}

// The application of a source that breaks no rule.
fn build(alloc: Global, source: &Source, table: &Table, names: &[Entry]) -> Result<App, Memory>
    requires names { names.now ≡ entries source.now }
    requires table { IndexesDeclared table.now names.now }
    requires unbroken { offences source.now ≡ [] }
    ensures { IfOk result (λ app. app ≡ network source.now) }
{
    source.kept();
    let numbers = numbers(alloc, names)?;
    let numbering = Numbering {
        table,
        entries: names,
        numbers: &numbers,
    };
    let steps = steps_of(alloc, &numbering, source.statements.as_slice())?;
    let name = label_of(alloc, &source.name.text)?;
    let inputs = signals(alloc, names, Part::Input)?;
    let outputs = signals(alloc, names, Part::Output)?;
    let locals = signals(alloc, names, Part::Local)?;
    let instances = instances(alloc, names)?;
    Ok(App::of(name, inputs, outputs, locals, instances, steps))
}

/// The application that a source stands for, by the rules of names, drivers and limits (profile, after IEC 61131-3).
///
/// It is Ok exactly where none of the rules N1 to N12 refuses the source. Otherwise the answer is the lowest rule that
/// does, at the earliest of its places:
///
/// - N1: a name is declared again, without letter case; the later declaration (each later one is an offence, so the
///   earliest of their places is named);
/// - N2: a name in a statement is not declared; the name;
/// - N3: a type is neither SAFEBOOL, BOOL nor a block, or a block is declared in VAR_INPUT or VAR_OUTPUT; the type;
/// - N4: a pin is unknown, of the wrong direction or DiagCode, or a name is of the wrong sort; the pin or the name;
/// - N5: a call names a pin twice; the second;
/// - N6: an input or a pin's output is assigned; the target;
/// - N7: a signal has two assignments; the second target;
/// - N8: an output, or a local that is read, has no assignment; its declaration;
/// - N9: an instance is called twice; the second call;
/// - N10: an instance is never called; its declaration;
/// - N11: a limit on inputs, outputs, signals, instances or nodes is passed; the program's name;
/// - N12: a literal is not the whole argument of a pin; the literal.
///
/// The length of a name is not bounded here, and a name may hold dots: so a source whose function blocks are laid flat
/// is resolved as any other. It takes time in proportion to the source.
pub fn resolve(alloc: Global, source: &Source) -> Result<App, Fail>
    ensures { Resolves source.now result }
{
    let names = declared_names(alloc, source.sections.as_slice())?;
    let (table, found) = check(
        alloc,
        source.name.place,
        &names,
        source.statements.as_slice(),
    )?;
    match found {
        Some(refusal) => Err(Fail::Refused(refusal)),
        None => Ok(build(alloc, source, &table, &names)?),
    }
}
