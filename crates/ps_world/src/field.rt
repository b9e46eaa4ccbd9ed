// The values of single fields of reports.

ghost use Rattle.std.specs.Prelude.{◌≡◌, ◌<◌, Some, length, slice_get};
ghost use Rattle.ps_model.specs.Fields.{diag_fields, fields};
ghost use Rattle.ps_machine.specs.Outcomes.{outcome};
ghost use Rattle.ps_machine.specs.Seats.{machine_in};
ghost use Rattle.ps_world.specs.Verdicts.{field_in};

use ps_machine::{ScanMachine, Seat};
use ps_model::{Diag, Report};

// Ready, Error or DiagCode, numbered 0 to 2: 0 or 1 of a Boolean.
fn part_of(diag: Diag, part: usize) -> u16
    requires { part < 3 }
    ensures { slice_get (diag_fields diag) part ≡ Some result }
{
    match part {
        0 => u16::from(diag.ready),
        1 => u16::from(diag.error),
        _ => diag.code,
    }
}

// The value of a field of a report, if there is such a field.
fn value_at(report: &Report, field: usize) -> Option<u16>
    ensures { result ≡ slice_get (fields report.now) field }
{
    let outputs = report.outs.len();
    if field < outputs {
        return Some(u16::from(report.outs.at(field)));
    }
    let behind = field - outputs;
    let instance = behind / 3;
    if instance >= report.diags.len() {
        return None;
    }
    Some(part_of(report.diags.at(instance), behind % 3))
}

// The value of a field in the report of a seat, which is read into a report of its sizes.
pub(crate) fn value_given<C: ScanMachine>(
    seat: &Seat<C>,
    room: &mut Report,
    field: u16,
) -> Option<u16>
    requires outs { length room.old.outs ≡ seat.now.sizes.outputs }
    requires diags { length room.old.diags ≡ seat.now.sizes.instances }
    ensures value { result ≡ field_in field (outcome (machine_in C.workings seat.now) seat.now.channel.cells) }
    ensures outs { length room.new.outs ≡ length room.old.outs }
    ensures diags { length room.new.diags ≡ length room.old.diags }
{
    room.clear();
    match seat.outcome_into(room) {
        Ok(()) => value_at(room, usize::from(field)),
        Err(_) => None,
    }
}
