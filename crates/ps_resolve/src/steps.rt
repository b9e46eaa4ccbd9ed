// The steps of an application, from the statements of its source.

ghost use Rattle.std.specs.Prelude.{◌≡◌, ◌<◌, IfOk, length, map, Some, slice_get};
ghost use Rattle.ps_model.specs.Args.{actual};
ghost use Rattle.ps_model.specs.Blocks.{Pin, block};
ghost use Rattle.ps_model.specs.Steps as model;
ghost use Rattle.ps_model.specs.Exprs.{formula};
ghost use Rattle.ps_parser.specs.SumView.{factor_tree, product_tree, sum_tree};
ghost use Rattle.ps_parser.specs.ArgumentView.{argument_tree};
ghost use Rattle.ps_parser.specs.StatementView.{statement_tree};
ghost use Rattle.ps_names.specs.Names.{sort_of};
ghost use Rattle.ps_names.specs.Stands.{factor_formula, product_formula, sum_formula, actual_of, actual_at, actuals};
ghost use Rattle.ps_names.specs.Stands.{kind_of, sort_or, target_number, action};
ghost use Rattle.ps_resolve.specs.Numbering.{IsNumbered};

use crate::declared::is_word;
use crate::literal::{Literal, literal_of};
use crate::numbers::{Numbering, number, pin_number};
use ps_base::Memory;
use ps_model::{Arg, Args, Expr, Exprs, Kind, Step, Steps, input_count, pin_name};
use ps_names::{Sort, all_of, any_of, sort_at};
use ps_parser::{Argument, Factor, Name, Product, Statement, Sum, Target};
use std::alloc::Global;

// The expression that a sum stands for.
#[cycle(expression)]
fn sum_expr(alloc: Global, numbering: &Numbering, sum: &Sum) -> Result<Expr, Memory>
    requires { IsNumbered numbering.now.table.now numbering.now.entries.now numbering.now.numbers.now }
    ensures { IfOk result (λ e. formula e ≡ sum_formula numbering.now.entries.now (sum_tree sum.now)) }
{
    let mut items = Vec::new(alloc);
    'each: for product in &sum.products.items {
        let item = product_expr(alloc, numbering, product)?;
        items.push(item)?;
    }
    Ok(any_of(items))
}

// The expression that a product stands for.
#[cycle(expression)]
fn product_expr(alloc: Global, numbering: &Numbering, product: &Product) -> Result<Expr, Memory>
    requires { IsNumbered numbering.now.table.now numbering.now.entries.now numbering.now.numbers.now }
    ensures { IfOk result (λ e. formula e ≡ product_formula numbering.now.entries.now (product_tree product.now)) }
{
    let mut items = Vec::new(alloc);
    'each: for factor in &product.factors.items {
        let item = factor_expr(alloc, numbering, factor)?;
        items.push(item)?;
    }
    Ok(all_of(items))
}

// The expression that a factor stands for. A literal is none; it is never met in a source that breaks no rule.
#[cycle(expression)]
fn factor_expr(alloc: Global, numbering: &Numbering, factor: &Factor) -> Result<Expr, Memory>
    requires { IsNumbered numbering.now.table.now numbering.now.entries.now numbering.now.numbers.now }
    ensures { IfOk result (λ e. formula e ≡ factor_formula numbering.now.entries.now (factor_tree factor.now)) }
{
    match factor {
        Factor::Name(n) => {
            let k = number(alloc, numbering, n)?;
            Ok(Expr::Signal(k))
        }
        Factor::Pin(n, q) => {
            let k = pin_number(alloc, numbering, n, q)?;
            Ok(Expr::Signal(k))
        }
        Factor::Lit(_, _) => Ok(Expr::And(Exprs {
            items: Vec::new(alloc),
        })),
        Factor::Time(_, _) => Ok(Expr::And(Exprs {
            items: Vec::new(alloc),
        })),
        Factor::Group(s) => sum_expr(alloc, numbering, s),
    }
}

// What stands at a pin that is given this value.
fn arg_of(alloc: Global, numbering: &Numbering, value: &Sum) -> Result<Arg, Memory>
    requires { IsNumbered numbering.now.table.now numbering.now.entries.now numbering.now.numbers.now }
    ensures { IfOk result (λ a. actual a ≡ actual_of numbering.now.entries.now (sum_tree value.now)) }
{
    match literal_of(value) {
        Some(Literal::Bool(b)) => Ok(Arg::Lit(b)),
        Some(Literal::Time(t)) => Ok(Arg::Time(t)),
        None => {
            let e = sum_expr(alloc, numbering, value)?;
            Ok(Arg::Value(e))
        }
    }
}

// What stands at the pin with this name. A call has at most one argument for each of at most 14 pins.
fn arg_at(
    alloc: Global,
    numbering: &Numbering,
    arguments: &[Argument],
    pin: &str,
) -> Result<Arg, Memory>
    requires { IsNumbered numbering.now.table.now numbering.now.entries.now numbering.now.numbers.now }
    ensures { IfOk result (λ a. actual a ≡ actual_at numbering.now.entries.now (map argument_tree arguments.now) pin.now) }
{
    for argument in arguments {
        if is_word(&argument.pin, pin.as_bytes()) {
            return arg_of(alloc, numbering, &argument.value);
        }
    }
    Ok(Arg::Free)
}

// The arguments of a call, one for each input pin of the kind.
fn args_of(
    alloc: Global,
    numbering: &Numbering,
    kind: Kind,
    arguments: &[Argument],
) -> Result<Args, Memory>
    requires { IsNumbered numbering.now.table.now numbering.now.entries.now numbering.now.numbers.now }
    ensures { IfOk result (λ args. args ≡ actuals numbering.now.entries.now kind (map argument_tree arguments.now)) }
{
    let mut args = Args::new(alloc);
    for j in 0..input_count(kind) {
        let arg = arg_at(alloc, numbering, arguments, input_name(kind, j))?;
        args.push(arg)?;
    }
    Ok(args)
}

// The name of input pin j of a kind.
fn input_name(kind: Kind, j: u8) -> &'static str
    requires { j < length (block kind).inputs }
    ensures { slice_get (map (λ (p : Pin). p.name) (block kind).inputs) j ≡ Some result.now }
{
    pin_name(kind, j)
}

// The kind of the instance that a name stands for; another kind where it stands for none.
fn kind_of(alloc: Global, numbering: &Numbering, name: &Name) -> Result<Kind, Memory>
    requires { IsNumbered numbering.now.table.now numbering.now.entries.now numbering.now.numbers.now }
    ensures { IfOk result (λ kind. kind ≡ kind_of (sort_or (sort_of numbering.now.entries.now name.now))) }
{
    match numbering.table.place_of(alloc, name)? {
        Some(k) => Ok(kind_in(sort_at(numbering.entries, k))),
        None => Ok(kind_in(None)),
    }
}

// The kind of an instance; another kind where it is none.
fn kind_in(sort: Option<Sort>) -> Kind
    ensures { result ≡ kind_of (sort_or sort) }
{
    match sort {
        Some(Sort::Instance(kind)) => kind,
        _ => Kind::Equivalent,
    }
}

// The number of a target.
fn target_number(alloc: Global, numbering: &Numbering, target: &Target) -> Result<u16, Memory>
    requires { IsNumbered numbering.now.table.now numbering.now.entries.now numbering.now.numbers.now }
    ensures { IfOk result (λ k. k ≡ target_number numbering.now.entries.now target.now) }
{
    match target {
        Target::Name(n) => number(alloc, numbering, n),
        Target::Pin(n, q) => pin_number(alloc, numbering, n, q),
    }
}

// The step that a statement is.
fn step_of(alloc: Global, numbering: &Numbering, statement: &Statement) -> Result<Step, Memory>
    requires { IsNumbered numbering.now.table.now numbering.now.entries.now numbering.now.numbers.now }
    ensures { IfOk result (λ s. model.action s ≡ action numbering.now.entries.now (statement_tree statement.now)) }
{
    match statement {
        Statement::Assign(target, sum) => {
            let target = target_number(alloc, numbering, target)?;
            let value = sum_expr(alloc, numbering, sum)?;
            Ok(Step::Assign { target, value })
        }
        Statement::Call(name, arguments) => {
            let instance = number(alloc, numbering, name)?;
            let kind = kind_of(alloc, numbering, name)?;
            let args = args_of(alloc, numbering, kind, arguments.as_slice())?;
            Ok(Step::Call { instance, args })
        }
    }
}

/// The steps that these statements are.
pub fn steps_of(
    alloc: Global,
    numbering: &Numbering,
    statements: &[Statement],
) -> Result<Steps, Memory>
    requires { IsNumbered numbering.now.table.now numbering.now.entries.now numbering.now.numbers.now }
    ensures { IfOk result (λ s. s ≡ map (action numbering.now.entries.now) (map statement_tree statements.now)) }
{
    let mut steps = Steps::new(alloc);
    for statement in statements {
        let step = step_of(alloc, numbering, statement)?;
        steps.push(step)?;
    }
    Ok(steps)
}
