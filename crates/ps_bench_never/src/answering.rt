// The answer to a rules file whose scans come so many ms apart.

ghost use Rattle.std.specs.Prelude.{◌≡◌, ◌<◌, ◌≤◌, Err, IfOk, IsErrOf, count_by};
ghost use Rattle.ps_reach.specs.Reaching.{is_free};
ghost use Rattle.ps_bench_rules.specs.File.{pace_of};
ghost use Rattle.ps_bench_rules.specs.Standing.{IsOfApplication};
ghost use Rattle.ps_bench_rules.specs.declared.flaw.RulesRefusal.{RulesRefusal as RulesRefusalOf};
ghost use Rattle.ps_bench_rules.specs.declared.rules.Pace.TheVariants.{Every as ComesEvery};
ghost use Rattle.ps_bench_never.specs.Asked.{IsAskedBy};
ghost use Rattle.ps_bench_never.specs.Answering.{HasManyFree, IsToldBy};

use crate::ruling::asked_of;
use crate::telling::{Asking, told};
use ps_base::{Bytes, Memory};
use ps_bench_rules::{Flaw, RulesFile, RulesRefusal};
use ps_model::App;
use ps_reach::{Asked, MOST_FREE, do_all_hold, free_inputs, never};
use ps_search::Observer;
use std::alloc::Global;

/// What is told of the rules of a file.
#[derive(Drop)]
pub struct Told {
    /// What is written of them.
    pub text: Bytes,
    /// Whether every rule holds.
    pub do_all_hold: bool,
}

/// Why the rules of a file have no answer.
#[derive(Clone, Copy)]
pub enum NeverFail {
    /// The file is refused.
    Refused(RulesRefusal),
    /// The file cannot be read.
    Fault,
    /// Out of memory.
    Memory,
}

impl From<Memory> for NeverFail {
    ghost use Rattle.std.specs.Prelude.{◌≡◌};
    ghost use Rattle.ps_bench_never.specs.declared.answering.NeverFail.TheVariants.{Memory as NoMemory};

    ghost from_gives = { λ _ fail. fail ≡ NoMemory };

    fn from(_memory: Memory) -> NeverFail {
        NeverFail::Memory
    }
}

/// What a rules file asks of an application, with so many ms from scan to scan. `Refused` comes where over 20 inputs are
/// free (R5, at the line after the last one).
pub fn asked_if_few(
    alloc: Global,
    app: &App,
    file: &RulesFile,
    every: u32,
) -> Result<Asked, NeverFail>
    requires { IsOfApplication app.now file.now }
    ensures asks { IfOk result (IsAskedBy app.now file.now every) }
    ensures few { IfOk result (λ asked. count_by is_free asked.inputs.items ≤ 20) }
    ensures many { (refusal : RulesRefusalOf) → result ≡ Err (NeverFail.Refused refusal) → HasManyFree app.now file.now refusal }
    ensures read { ¬ IsErrOf result NeverFail.Fault }
{
    let asked = asked_of(alloc, app, file, every)?;
    if free_inputs(asked.inputs.as_slice()) > MOST_FREE as usize {
        return Err(NeverFail::Refused(RulesRefusal {
            flaw: Flaw::R5,
            line: file.end,
        }));
    }
    Ok(asked)
}

/// The answer to a rules file that is read, whose scans come so many ms apart, of which so many states may be held: what
/// is told of its rules, and whether all hold. `Refused` comes where over 20 inputs are free (R5, at the line after the
/// last one).
pub fn answer_every<W: Observer>(
    alloc: Global,
    app: &App,
    name: &str,
    file: &RulesFile,
    every: u32,
    most: u32,
    observer: &mut W,
) -> Result<Told, NeverFail>
    requires some { 0 < most }
    requires stands { IsOfApplication app.now file.now }
    requires pace { pace_of file.now ≡ ComesEvery every }
    // What is told of a rule is so of all runs of the application.
    ensures tells { IfOk result (IsToldBy app.now name.now most file.now) }
    ensures many { (refusal : RulesRefusalOf) → result ≡ Err (NeverFail.Refused refusal) → HasManyFree app.now file.now refusal }
    ensures read { ¬ IsErrOf result NeverFail.Fault }
{
    app.sound();
    let asked = asked_if_few(alloc, app, file, every)?;
    let found = never(alloc, app, &asked, most, observer)?;
    let asking = Asking {
        app,
        file: name,
        rules: file.rules.as_slice(),
        asked: &asked,
        most,
    };
    let text = told(alloc, &asking, &found)?;
    Ok(Told {
        text,
        do_all_hold: do_all_hold(&found),
    })
}
