// The limits of an application, counted on its source (N11).

ghost use Rattle.std.specs.Prelude.{◌≡◌, ◌+◌, ◌≤◌, ◌<◌, ◌^◌, nat_lt, nat_le, if◌then◌else◌, map, min, sum_by};
ghost use Rattle.ps_parser.specs.SumView.{factor_tree, product_tree, sum_tree};
ghost use Rattle.ps_parser.specs.ArgumentView.{argument_tree};
ghost use Rattle.ps_parser.specs.StatementView.{statement_tree};
ghost use Rattle.ps_names.specs.Names.{is_input, is_output, is_local, is_instance};
ghost use Rattle.ps_names.specs.Offences.{noted};
ghost use Rattle.ps_names.specs.Limits.{outputs_of, signals, factor_nodes, product_nodes, sum_nodes, statement_nodes};
ghost use Rattle.ps_names.specs.Limits.{is_within};
ghost use Rattle.ps_names.specs.Rules.{too_large};
ghost use Rattle.ps_resolve.specs.Counting.{counts_of, signals_of, extra_of};

use ps_base::limits::{MOST_INPUTS, MOST_INSTANCES, MOST_NODES, MOST_OUTPUTS, MOST_SIGNALS};
use ps_base::{Place, Refusal, Rule};
use ps_model::output_count;
use ps_names::{Entry, Sort, note_if};
use ps_parser::{Argument, Factor, Product, Statement, Sum};

// More than any limit that is counted here: counts stop at it, so that they never pass their type.
const ENOUGH: usize = 32_768;

/// How many declared names there are of each sort.
#[derive(Clone, Copy)]
pub struct Counts {
    pub inputs: usize,
    pub outputs: usize,
    pub locals: usize,
    pub instances: usize,
}

/// How many of these names there are of each sort.
pub fn count(entries: &[Entry]) -> Counts
    ensures { result ≡ counts_of entries.now }
{
    let mut counts = Counts {
        inputs: 0,
        outputs: 0,
        locals: 0,
        instances: 0,
    };
    for i in 0..entries.len() {
        counts = count_one(counts, entries[i].sort, i);
    }
    counts
}

/// One more name.
pub fn count_one(counts: Counts, sort: Sort, most: usize) -> Counts
    requires inputs { counts.inputs ≤ most }
    requires outputs { counts.outputs ≤ most }
    requires locals { counts.locals ≤ most }
    requires instances { counts.instances ≤ most }
    requires room { most + 1 < 2 ^ 64 }
    ensures inputs { result.inputs ≡ counts.inputs + (if is_input sort then 1 else 0) }
    ensures outputs { result.outputs ≡ counts.outputs + (if is_output sort then 1 else 0) }
    ensures locals { result.locals ≡ counts.locals + (if is_local sort then 1 else 0) }
    ensures instances { result.instances ≡ counts.instances + (if is_instance sort then 1 else 0) }
{
    let mut counts = counts;
    match sort {
        Sort::InputSignal(_) => counts.inputs += 1,
        Sort::OutputSignal(_) => counts.outputs += 1,
        Sort::LocalSignal(_) => counts.locals += 1,
        Sort::Instance(_) => counts.instances += 1,
        Sort::Nothing => {}
    }
    counts
}

/// How many outputs a name brings, Ready and Error among them.
#[tactic(auto, unfolding(ps_model::specs::Blocks::output_count, ps_model::specs::Blocks::block))]
pub fn outputs_of(sort: Sort) -> usize
    ensures is { result ≡ outputs_of sort }
    ensures few { result ≤ 11 }
{
    match sort {
        Sort::Instance(kind) => output_count(kind) as usize,
        _ => 0,
    }
}

// How many signals a name brings: itself, or its outputs.
fn signals_of(sort: Sort) -> usize
    ensures is { result ≡ signals_of sort }
    ensures few { result ≤ 11 }
{
    match sort {
        Sort::InputSignal(_) | Sort::OutputSignal(_) | Sort::LocalSignal(_) => 1,
        Sort::Instance(_) => outputs_of(sort),
        Sort::Nothing => 0,
    }
}

// So many and more of them, as far as is counted.
fn add(so_far: usize, more: usize) -> usize
    requires few { so_far ≤ ENOUGH }
    requires room { more ≤ ENOUGH }
    ensures { result ≡ min (so_far + more) ENOUGH }
{
    if so_far + more < ENOUGH {
        so_far + more
    } else {
        ENOUGH
    }
}

// How many signals these names bring, as far as is counted.
fn count_signals(entries: &[Entry]) -> usize
    ensures { result ≡ min (signals entries.now) ENOUGH }
{
    let mut total = 0;
    for e in entries {
        total = add(total, signals_of(e.sort));
    }
    total
}

// So many nodes, and one more where two parts or more are joined.
fn add_join(so_far: usize, parts: usize) -> usize
    requires { so_far ≤ ENOUGH }
    ensures { result ≡ min (so_far + extra_of parts) ENOUGH }
{
    if parts > 1 { add(so_far, 1) } else { so_far }
}

// So many nodes and those of a sum, as far as is counted.
#[cycle(nodes)]
fn add_sum(so_far: usize, sum: &Sum) -> usize
    requires { so_far ≤ ENOUGH }
    ensures { result ≡ min (so_far + sum_nodes (sum_tree sum.now)) ENOUGH }
{
    let mut count = add_join(so_far, sum.products.items.len());
    'each: for product in &sum.products.items {
        count = add_product(count, product);
    }
    count
}

// So many nodes and those of a product, as far as is counted.
#[cycle(nodes)]
fn add_product(so_far: usize, product: &Product) -> usize
    requires { so_far ≤ ENOUGH }
    ensures { result ≡ min (so_far + product_nodes (product_tree product.now)) ENOUGH }
{
    let mut count = add_join(so_far, product.factors.items.len());
    'each: for factor in &product.factors.items {
        count = add_factor(count, factor);
    }
    count
}

// So many nodes and those of a factor, as far as is counted.
#[cycle(nodes)]
fn add_factor(so_far: usize, factor: &Factor) -> usize
    requires { so_far ≤ ENOUGH }
    ensures { result ≡ min (so_far + factor_nodes (factor_tree factor.now)) ENOUGH }
{
    match factor {
        Factor::Name(_) => add(so_far, 1),
        Factor::Pin(_, _) => add(so_far, 1),
        Factor::Lit(_, _) => so_far,
        Factor::Time(_, _) => so_far,
        Factor::Group(s) => add_sum(so_far, s),
    }
}

// So many nodes and those of the values of these arguments, as far as is counted.
fn add_arguments(so_far: usize, arguments: &[Argument]) -> usize
    requires { so_far ≤ ENOUGH }
    ensures { result ≡ min (so_far + sum_by (λ a. sum_nodes a.value) (map argument_tree arguments.now)) ENOUGH }
{
    let mut count = so_far;
    for argument in arguments {
        count = add_sum(count, &argument.value);
    }
    count
}

// So many nodes and those of a statement, as far as is counted.
fn add_statement(so_far: usize, statement: &Statement) -> usize
    requires { so_far ≤ ENOUGH }
    ensures { result ≡ min (so_far + statement_nodes (statement_tree statement.now)) ENOUGH }
{
    match statement {
        Statement::Assign(_, value) => add_sum(so_far, value),
        Statement::Call(_, arguments) => add_arguments(so_far, arguments.as_slice()),
    }
}

// The nodes of these statements, as far as is counted.
fn count_nodes(statements: &[Statement]) -> usize
    ensures { result ≡ min (sum_by statement_nodes (map statement_tree statements.now)) ENOUGH }
{
    let mut count = 0;
    for statement in statements {
        count = add_statement(count, statement);
    }
    count
}

// Whether the limits hold of a program with these declarations and statements.
fn is_within(entries: &[Entry], statements: &[Statement]) -> bool
    ensures { result ≡ is_within entries.now (map statement_tree statements.now) }
{
    let counts = count(entries);
    let signals = count_signals(entries);
    let nodes = count_nodes(statements);
    counts.inputs <= MOST_INPUTS as usize
        && counts.outputs <= MOST_OUTPUTS as usize
        && counts.instances <= MOST_INSTANCES as usize
        && signals <= MOST_SIGNALS as usize
        && nodes <= MOST_NODES as usize
}

/// Notes at the program's name where a limit is passed (N11).
pub fn check_limits(
    place: Place,
    entries: &[Entry],
    statements: &[Statement],
    found: Option<Refusal>,
) -> Option<Refusal>
    ensures { result ≡ noted found (too_large place entries.now (map statement_tree statements.now)) }
{
    let within = is_within(entries, statements);
    note_if(found, !within, Rule::N11, place)
}
