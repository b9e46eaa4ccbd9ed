// The faults of a case.

ghost use Rattle.std.specs.Prelude.{◌≡◌, ◌∷◌, ◌++◌, [], IfOk, OnOk};
ghost use Rattle.ps_bench_cases.specs.Meant.{faults_in};

use crate::{Act, Statement};
use ps_base::{Bytes, Memory};
use ps_model::Fault;
use ps_trace::Faults;
use std::alloc::Global;

// Puts the fault that a line is, if it is one, after those before.
fn put_fault(alloc: Global, statement: &Statement, faults: &mut Faults) -> Result<(), Memory>
    ensures { OnOk result (faults.new ≡ faults.old ++ faults_in (statement.now ∷ [])) }
{
    match &statement.act {
        Act::Fault(fault) => faults.push(Fault {
            scan: fault.scan,
            turn: fault.turn,
            channel: fault.channel,
            region: fault.region,
            at: fault.at,
            bytes: Bytes::from_slice(alloc, fault.bytes.as_slice())?,
        }),
        Act::Set | Act::Scans(_) | Act::Restart | Act::Expect(_) => Ok(()),
    }
}

// Puts the faults of statements after those before.
fn put_faults(alloc: Global, statements: &[Statement], faults: &mut Faults) -> Result<(), Memory>
    ensures { OnOk result (faults.new ≡ faults.old ++ faults_in statements.now) }
{
    for statement in statements {
        put_fault(alloc, statement, faults)?;
    }
    Ok(())
}

/// The faults of the statements of a case, in their order: of those before the first case, and of its own after them.
/// `Err` comes only if memory runs out.
pub fn faults_of(
    alloc: Global,
    begin: &[Statement],
    statements: &[Statement],
) -> Result<Faults, Memory>
    ensures { IfOk result (λ faults. faults ≡ faults_in begin.now ++ faults_in statements.now) }
{
    let mut faults = Faults::new(alloc);
    put_faults(alloc, begin, &mut faults)?;
    put_faults(alloc, statements, &mut faults)?;
    Ok(faults)
}
