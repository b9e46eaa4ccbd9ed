// A name that is watched, with its values.

ghost use Rattle.std.specs.Prelude.{◌≡◌, ◌+◌, ◌≤◌, All, IfOk, IfSome, map};
ghost use Rattle.ps_bench_judge.specs.Moments.{moment_of};
ghost use Rattle.ps_bench_waves.specs.Room.{IsKeyed, columns_room, frame_room, renewed};

use crate::Field;
use crate::format::Format;
use crate::key::key_of;
use ps_base::{Bytes, Memory};
use ps_bench_judge::{Seen, value_of};
use ps_bench_names::Name;
use ps_model::App;
use std::alloc::Global;

/// The most bytes of a column beside what stands for its name.
const COLUMN_ROOM: usize = 140;

/// The most bytes of a line beside its columns.
const FRAME_ROOM: usize = 80;

/// A name that is watched, with its value.
#[derive(Drop)]
pub(crate) struct Column {
    /// The name.
    pub(crate) name: Name,
    /// What stands for it in a line.
    pub(crate) key: Bytes,
    /// Its value.
    pub(crate) field: Field,
}

/// The columns of these names, before the first scan.
pub(crate) fn columns_of(
    alloc: Global,
    app: &App,
    format: Format,
    names: &[Name],
) -> Result<Vec<Column>, Memory>
    ensures names { IfOk result (λ columns. map (λ c. c.name) columns.items ≡ names.now) }
    ensures keyed { IfOk result (λ columns. All (IsKeyed format app.now) columns.items) }
{
    let mut columns = Vec::new(alloc);
    for name in names {
        let key = key_of(alloc, app, format, *name)?;
        columns.push(Column {
            name: *name,
            key,
            field: Field::new(),
        })?;
    }
    Ok(columns)
}

/// The bytes that suffice for every line of these columns, or None where they pass every number.
pub(crate) fn room_for(columns: &[Column]) -> Option<usize>
    ensures { IfSome result (λ room. frame_room + columns_room columns.now ≤ room) }
{
    let mut room = FRAME_ROOM;
    for column in columns {
        room = room
            .checked_add(column.key.len())?
            .checked_add(COLUMN_ROOM)?;
    }
    Some(room)
}

// Takes the value of a column in the next scan, which is or is not a first one.
fn renew_one(app: &App, is_first: bool, seen: &Seen<'_>, column: &mut Column)
    ensures { column.new ≡ renewed app.now is_first (moment_of seen.entry.now) column.old }
{
    let value = value_of(app, column.name, seen);
    column.field = column.field.in_next(is_first, value);
}

/// Takes the values of the next scan, which is or is not a first one.
pub(crate) fn renew(app: &App, is_first: bool, seen: &Seen<'_>, columns: &mut [Column])
    ensures { columns.new ≡ map (renewed app.now is_first (moment_of seen.entry.now)) columns.old }
{
    for column in columns.iter_mut() {
        renew_one(app, is_first, seen, column);
    }
}
