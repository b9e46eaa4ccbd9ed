// The row of a scan in CSV, and its object in JSON.

ghost use Rattle.std.specs.Prelude.{◌≡◌, ◌+◌, ◌≤◌, ◌++◌, All, length};
ghost use Rattle.ps_model.specs.Stored.{bit};
ghost use Rattle.ps_bench_waves.specs.Lines.{csv_row, fields_text, json_line, members_text};
ghost use Rattle.ps_bench_waves.specs.Room.{IsKeyed, cells_of, columns_room, frame_room};
ghost use Rattle.ps_bench_waves.specs.declared.format.Format.TheVariants.{Json};

use crate::column::Column;
use crate::line::Line;
use crate::shown::{put_digit, put_field, put_json_value, put_truth};
use ps_bench_judge::is_stopped;
use ps_model::{App, Verdict};

// A truth value as a number.
fn number(value: bool) -> u16
    ensures { result ≡ bit value }
{
    if value { 1 } else { 0 }
}

// Puts values as fields of CSV, each after a comma.
fn put_fields(line: &mut Line, columns: &[Column])
    requires { length line.old.text + columns_room columns.now ≤ line.old.room }
    ensures text { line.new.text ≡ line.old.text ++ fields_text (cells_of columns.now) }
    ensures len { length line.new.text ≤ length line.old.text + columns_room columns.now }
    ensures room { line.new.room ≡ line.old.room }
{
    for column in columns {
        line.put(b",");
        put_field(line, column.name, column.field.value);
    }
}

/// Makes the row of a scan in CSV.
pub(crate) fn make_csv_row(
    line: &mut Line,
    now: u32,
    is_restarted: bool,
    verdict: Verdict,
    columns: &[Column],
)
    requires { frame_room + columns_room columns.now ≤ line.old.room }
    ensures text { line.new.text ≡ csv_row now is_restarted verdict (cells_of columns.now) }
    ensures room { line.new.room ≡ line.old.room }
{
    line.clear();
    line.put_count(now);
    line.put(b",");
    put_digit(line, number(is_restarted));
    line.put(b",");
    put_digit(line, number(is_stopped(verdict)));
    put_fields(line, columns);
    line.put(b"\n");
}

// Puts values as members of an object of JSON, each after a comma.
fn put_members(line: &mut Line, app: &App, columns: &[Column])
    requires keyed { All (IsKeyed Json app.now) columns.now }
    requires room { length line.old.text + columns_room columns.now ≤ line.old.room }
    ensures text { line.new.text ≡ line.old.text ++ members_text app.now (cells_of columns.now) }
    ensures len { length line.new.text ≤ length line.old.text + columns_room columns.now }
    ensures room { line.new.room ≡ line.old.room }
{
    for column in columns {
        line.put(b",");
        line.put(column.key.as_slice());
        put_json_value(line, column.name, column.field.value);
    }
}

/// Makes the object of a scan in JSON, in a line.
pub(crate) fn make_json_line(
    line: &mut Line,
    app: &App,
    now: u32,
    is_restarted: bool,
    verdict: Verdict,
    columns: &[Column],
)
    requires keyed { All (IsKeyed Json app.now) columns.now }
    requires room { frame_room + columns_room columns.now ≤ line.old.room }
    ensures text { line.new.text ≡ json_line app.now now is_restarted verdict (cells_of columns.now) }
    ensures room { line.new.room ≡ line.old.room }
{
    line.clear();
    line.put(b"{\"@time\":");
    line.put_count(now);
    line.put(b",\"@restart\":");
    put_truth(line, number(is_restarted));
    line.put(b",\"@trip\":");
    put_truth(line, number(is_stopped(verdict)));
    put_members(line, app, columns);
    line.put(b"}\n");
}
