// The numbers of declared names and of the outputs of instances.

ghost use Rattle.std.specs.Prelude.{◌≡◌, ◌<◌, ◌≤◌, ◌+◌, IfOk, Some, slice_get};
ghost use Rattle.ps_names.specs.Names.{is_input, is_output, is_local, is_instance};
ghost use Rattle.ps_names.specs.Limits.{inputs, outputs, locals, instances, signals};
ghost use Rattle.ps_names.specs.Stands.{outputs_before, number_at, number, pin_number_as, pin_number_at, pin_number};
ghost use Rattle.ps_names.specs.declared.entry.Entry.{Entry};
ghost use Rattle.ps_resolve.specs.Numbering.{number_in, AreNumbers, IsNumbered};

use crate::limits::{Counts, count, count_one, outputs_of};
use ps_base::Memory;
use ps_base::limits::{MOST_INSTANCES, MOST_SIGNALS};
use ps_names::{Entry, Sort, Table, output_at, sort_at};
use ps_parser::Name;
use std::alloc::Global;

/// The number of a declared name, and the number of the first output of the instances from there on.
#[derive(Clone, Copy)]
pub struct Numbered {
    pub number: u16,
    pub first: u16,
}

/// The declared names with their table and their numbers.
#[derive(Clone, Copy)]
pub struct Numbering<'a> {
    pub table: &'a Table,
    pub entries: &'a [Entry],
    pub numbers: &'a [Numbered],
}

// The number of a name of this sort, where so many of each sort stand before it.
fn number_in(sort: Sort, all: Counts, before: Counts) -> u16
    requires inputs { before.inputs ≤ all.inputs }
    requires outputs { before.outputs ≤ all.outputs }
    requires locals { before.locals ≤ all.locals }
    requires instances { before.instances ≤ all.instances }
    requires signals { all.inputs + all.outputs + all.locals ≤ MOST_SIGNALS }
    requires blocks { all.instances ≤ MOST_INSTANCES }
    ensures { result ≡ number_in sort all before }
{
    let number = match sort {
        Sort::InputSignal(_) => before.inputs,
        Sort::OutputSignal(_) => all.inputs + before.outputs,
        Sort::LocalSignal(_) => all.inputs + all.outputs + before.locals,
        Sort::Instance(_) => before.instances,
        Sort::Nothing => 0,
    };
    number as u16
}

/// The numbers of these names.
pub fn numbers(alloc: Global, entries: &[Entry]) -> Result<Vec<Numbered>, Memory>
    requires signals { signals entries.now ≤ MOST_SIGNALS }
    requires blocks { instances entries.now ≤ MOST_INSTANCES }
    ensures { IfOk result (λ v. AreNumbers entries.now v.items) }
{
    let all = count(entries);
    let mut before = Counts {
        inputs: 0,
        outputs: 0,
        locals: 0,
        instances: 0,
    };
    let mut first = all.inputs + all.outputs + all.locals;
    let mut numbers = Vec::new(alloc);
    for i in 0..entries.len() {
        let sort = entries[i].sort;
        let number = number_in(sort, all, before);
        numbers.push(Numbered {
            number,
            first: first as u16,
        })?;
        before = count_one(before, sort, i);
        first += outputs_of(sort);
    }
    Ok(numbers)
}

// The number of what is declared at a place.
fn number_at(numbering: &Numbering, k: usize) -> u16
    requires { IsNumbered numbering.now.table.now numbering.now.entries.now numbering.now.numbers.now }
    ensures { result ≡ number_at numbering.now.entries.now (Some k) }
{
    if k < numbering.numbers.len() {
        numbering.numbers[k].number
    } else {
        0
    }
}

/// The number of a declared name.
pub fn number(alloc: Global, numbering: &Numbering, name: &Name) -> Result<u16, Memory>
    requires { IsNumbered numbering.now.table.now numbering.now.entries.now numbering.now.numbers.now }
    ensures { IfOk result (λ k. k ≡ number numbering.now.entries.now name.now) }
{
    match numbering.table.place_of(alloc, name)? {
        Some(k) => Ok(number_at(numbering, k)),
        None => Ok(0),
    }
}

// The first output of what is declared at a place.
fn first_at(numbering: &Numbering, k: usize) -> u16
    requires { IsNumbered numbering.now.table.now numbering.now.entries.now numbering.now.numbers.now }
    ensures is { (e : Entry) → slice_get numbering.now.entries.now k ≡ Some e → result ≡ outputs_before numbering.now.entries.now k }
    ensures few { result ≤ MOST_SIGNALS }
{
    if k < numbering.numbers.len() {
        numbering.numbers[k].first
    } else {
        0
    }
}

// The number of an output of what is declared at a place.
fn pin_number_at(numbering: &Numbering, k: usize, pin: &Name) -> u16
    requires { IsNumbered numbering.now.table.now numbering.now.entries.now numbering.now.numbers.now }
    ensures { result ≡ pin_number_at numbering.now.entries.now (Some k) pin.now }
{
    match sort_at(numbering.entries, k) {
        Some(Sort::Instance(kind)) => first_at(numbering, k) + u16::from(output_at(kind, pin)),
        _ => 0,
    }
}

/// The number of an output of an instance.
pub fn pin_number(
    alloc: Global,
    numbering: &Numbering,
    name: &Name,
    pin: &Name,
) -> Result<u16, Memory>
    requires { IsNumbered numbering.now.table.now numbering.now.entries.now numbering.now.numbers.now }
    ensures { IfOk result (λ k. k ≡ pin_number numbering.now.entries.now name.now pin.now) }
{
    match numbering.table.place_of(alloc, name)? {
        Some(k) => Ok(pin_number_at(numbering, k, pin)),
        None => Ok(0),
    }
}
