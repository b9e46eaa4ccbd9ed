// How a demand is written.

ghost use Rattle.std.specs.Prelude.{◌≡◌, ◌<◌, ◌++◌, IfOk, OnOk, Some, length, map};
ghost use Rattle.ps_model.specs.declared.driver.Driver.TheVariants.{Output};
ghost use Rattle.ps_model.specs.Drivers.{driver};
ghost use Rattle.ps_model.specs.Blocks.{output_count};
ghost use Rattle.ps_model.specs.Network.{instance_count, kind_at};
ghost use Rattle.ps_demand.specs.Demand.{demand as demanded};
ghost use Rattle.ps_demand.specs.Requirement.{requirements};
ghost use Rattle.ps_demand.specs.Slim.{slim};
ghost use Rattle.ps_demand.specs.Texts.{full_name, output_name, joining_word, is_group, where_wanted};
ghost use Rattle.ps_demand.specs.Texts.{text as demand_words, parts_text};
ghost use Rattle.ps_demand.specs.Views.{requirement};

use crate::demand::{Demand, Demands};
use crate::join::Join;
use ps_base::{Bytes, Memory};
use ps_model::{App, Driver, output_count, pin_count, pin_name};
use std::alloc::Global;

// Writes the name of an output of an instance at the end.
fn write_output_name(
    app: &App,
    instance: u16,
    output: u16,
    step: u16,
    bytes: &mut Bytes,
) -> Result<(), Memory>
    requires instance { instance < instance_count app.now }
    requires output { output < output_count (kind_at app.now instance) }
    ensures { OnOk result (bytes.new ≡ bytes.old ++ output_name app.now (Some (Output instance output step))) }
{
    let kind = app.instance_kind(instance);
    bytes.extend_from_slice(app.instance_name(instance).as_bytes())?;
    bytes.extend_from_slice(b".")?;
    let first = pin_count(kind) - output_count(kind);
    bytes.extend_from_slice(pin_name(kind, first + output as u8).as_bytes())
}

// Writes the name of a signal at the end.
fn write_name(app: &App, signal: u16, bytes: &mut Bytes) -> Result<(), Memory>
    ensures { OnOk result (bytes.new ≡ bytes.old ++ full_name app.now signal) }
{
    app.sound();
    if signal < app.declared_count() {
        return bytes.extend_from_slice(app.signal_name(signal).as_bytes());
    }
    if signal >= app.signal_count() {
        return Ok(());
    }
    match app.driver(signal) {
        Some(
            Driver::Output {
                instance,
                output,
                step,
            },
        ) => write_output_name(app, instance, output, step, bytes),
        Some(Driver::Assigned { .. }) | None => Ok(()),
    }
}

// The word between two parts.
fn joining_word(join: Join) -> &'static [u8]
    ensures { result.now ≡ joining_word join }
{
    match join {
        Join::And => b" AND ",
        Join::Or => b" OR ",
    }
}

// Whether a demand is a conjunction or a disjunction.
fn is_group(demand: &Demand) -> bool
    ensures { result ≡ is_group (requirement demand.now) }
{
    matches!(demand, Demand::All(_) | Demand::Any(_))
}

// Writes a text at the end where it is wanted.
fn write_where(wanted: bool, text: &[u8], bytes: &mut Bytes) -> Result<(), Memory>
    ensures { OnOk result (bytes.new ≡ bytes.old ++ where_wanted wanted text.now) }
{
    if wanted {
        return bytes.extend_from_slice(text);
    }
    Ok(())
}

/// Writes a demand at the end.
#[cycle(write)]
pub fn write_demand(app: &App, demand: &Demand, bytes: &mut Bytes) -> Result<(), Memory>
    ensures { OnOk result (bytes.new ≡ bytes.old ++ demand_words app.now (requirement demand.now)) }
{
    match demand {
        Demand::True => bytes.extend_from_slice(b"TRUE"),
        Demand::False => bytes.extend_from_slice(b"FALSE"),
        Demand::Now(s) => write_name(app, *s, bytes),
        Demand::Before(s) => {
            write_name(app, *s, bytes)?;
            bytes.extend_from_slice(b"@before")
        }
        Demand::NotNow(s) => {
            bytes.extend_from_slice(b"NOT ")?;
            write_name(app, *s, bytes)
        }
        Demand::NotBefore(s) => {
            bytes.extend_from_slice(b"NOT ")?;
            write_name(app, *s, bytes)?;
            bytes.extend_from_slice(b"@before")
        }
        Demand::All(parts) => write_parts(app, Join::And, parts, bytes),
        Demand::Any(parts) => write_parts(app, Join::Or, parts, bytes),
    }
}

// Writes parts at the end, with the word between any two, and a group in brackets.
#[cycle(write)]
fn write_parts(app: &App, join: Join, parts: &Demands, bytes: &mut Bytes) -> Result<(), Memory>
    ensures { OnOk result (bytes.new ≡ bytes.old ++ parts_text app.now join (requirements (map requirement parts.now.items.items))) }
{
    for (i, part) in parts.items.iter().enumerate() {
        write_where(i > 0, joining_word(join), bytes)?;
        write_where(is_group(part), b"(", bytes)?;
        write_demand(app, part, bytes)?;
        write_where(is_group(part), b")", bytes)?;
    }
    Ok(())
}

/// The text of a demand: names, and after a signal of the scan before `@before`; `NOT ` before a negation; ` AND ` and
/// ` OR ` between parts, with brackets round a disjunction in a conjunction and the reverse; `TRUE` and `FALSE`.
/// Signals have the spelling of their declarations, pins that of PLCopen TC5. The condition is that the demand is that
/// of the output, made slim. `Err` comes only if memory runs out.
pub fn demand_text(alloc: Global, app: &App, out: u16, demand: &Demand) -> Result<Bytes, Memory>
    requires { requirement demand.now ≡ slim (demanded app.now out) }
    ensures { IfOk result (λ bytes. bytes ≡ demand_words app.now (requirement demand.now)) }
{
    let mut bytes = Bytes::new(alloc);
    write_demand(app, demand, &mut bytes)?;
    Ok(bytes)
}
