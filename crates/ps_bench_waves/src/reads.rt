// How the value of a wire is come by in a scan.

ghost use Rattle.std.specs.Prelude.{◌≡◌, ◌<◌, ℕ, Bool, List, IfOk, IfSome, length};
ghost use Rattle.ps_bench_waves.specs.Values.{held};
ghost use Rattle.ps_bench_waves.specs.declared.count.Count.{Count as CountOf};
ghost use Rattle.ps_model.specs.Blocks.{block};
ghost use Rattle.ps_model.specs.Network.{instance_count};
ghost use Rattle.ps_model.specs.Scanning.{pins_under};
ghost use Rattle.ps_machine.specs.Calls.{input_pin};
ghost use Rattle.ps_bench_judge.specs.Moments.{Moment, moment_of};
ghost use Rattle.ps_bench_judge.specs.Named.{pin_of};
ghost use Rattle.ps_bench_waves.specs.Parts.{part_held};
ghost use Rattle.ps_bench_waves.specs.Reads.{AreReadsOf, read_held};

use crate::parts::{Part, value_of_part};
use crate::{Count, Value};
use ps_base::Memory;
use ps_bench_judge::Seen;
use ps_bench_names::Name;
use ps_machine::{call_step, free_value};
use ps_model::{App, Arg, Args, Kind, Step, input_count};
use std::alloc::Global;

/// How the value of a wire is come by in a scan.
#[derive(Clone, Copy)]
pub(crate) enum Read {
    /// It is the same in every scan, as at a pin at which a literal stands, or nothing.
    Still(bool),
    /// It is asked for in each scan.
    Asked(Part),
}

// What stands at an input pin of a call, where it is the same in every scan.
fn still_arg(kind: Kind, j: u8, args: &Args) -> Option<bool>
    requires { length args.now ≡ length (block kind).inputs }
    ensures { IfSome result (λ value. (v : ℕ → Bool) → pins_under v kind args.now j ≡ value) }
{
    if j as usize >= args.len() {
        return None;
    }
    match args.at(j as usize) {
        Arg::Free => Some(free_value(kind, j)),
        Arg::Lit(value) => Some(*value),
        Arg::Time(_) => Some(false),
        Arg::Value(_) => None,
    }
}

// What stands at an input pin of an instance, where it is the same in every scan.
fn still_input(app: &App, i: u16, j: u8) -> Option<bool>
    requires { i < instance_count app.now }
    ensures { IfSome result (λ value. (before behind : List Bool) → input_pin app.now before behind i j ≡ value) }
{
    app.sound();
    let k = call_step(app, i);
    match app.step(k) {
        Step::Call { instance, args } => still_arg(app.instance_kind(*instance), j, args),
        Step::Assign { .. } => None,
    }
}

// What stands at a pin of an instance, where it is the same in every scan.
fn still_pin(app: &App, i: u16, j: u8) -> Option<bool>
    ensures { IfSome result (λ value. (m : Moment) → pin_of app.now m i j ≡ value) }
{
    if i < app.instance_count() && j < input_count(app.instance_kind(i)) {
        still_input(app, i, j)
    } else {
        None
    }
}

// How what a wire is about is come by.
fn read_of(app: &App, part: Part) -> Read
    ensures { (count : CountOf) (m : Moment) → read_held app.now count m result ≡ part_held app.now count m part }
{
    if let Part::Bit(Name::Pin { instance, pin }) = part {
        if let Some(value) = still_pin(app, instance, pin) {
            return Read::Still(value);
        }
    }
    Read::Asked(part)
}

/// How what wires are about is come by.
pub(crate) fn reads_of(alloc: Global, app: &App, parts: &[Part]) -> Result<Vec<Read>, Memory>
    ensures { IfOk result (λ reads. AreReadsOf app.now reads.items parts.now) }
{
    let mut reads = Vec::with_capacity(alloc, parts.len())?;
    for part in parts {
        reads.push(read_of(app, *part))?;
    }
    Ok(reads)
}

/// What a wire has in a scan.
pub(crate) fn value_of_read(app: &App, count: Count, seen: &Seen<'_>, read: Read) -> Value
    ensures { held result ≡ read_held app.now count (moment_of seen.entry.now) read }
{
    match read {
        Read::Still(value) => Value::Bit(value),
        Read::Asked(part) => value_of_part(app, count, seen, part),
    }
}
