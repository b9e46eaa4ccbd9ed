// The line of a scan in words: what changed.

ghost use Rattle.std.specs.Prelude.{◌≡◌, ◌+◌, ◌≤◌, ◌++◌, All, length};
ghost use Rattle.ps_bench_waves.specs.Lines as lines;
ghost use Rattle.ps_bench_waves.specs.Lines.{change_text, changes_told, line_unless_none, time_text, told};
ghost use Rattle.ps_bench_waves.specs.Room.{IsKeyed, cells_of, column_room, columns_room, frame_room};
ghost use Rattle.ps_bench_waves.specs.declared.format.Format.TheVariants.{Text};

use crate::Field;
use crate::column::Column;
use crate::line::Line;
use crate::shown::put_value;
use ps_bench_judge::is_trip;
use ps_bench_names::Name;
use ps_model::{App, Verdict};

// What stands between the value before and the value now.
fn arrow(name: Name) -> &'static [u8]
    ensures arrow { result.now ≡ lines.arrow name }
    ensures short { length result.now ≤ 3 }
{
    match name {
        Name::Signal(_) | Name::Pin { .. } => b">",
        Name::Code(_) => b" > ",
    }
}

// Whether a value stayed as it was.
fn stays(field: Field) -> bool
    ensures { result ≡ lines.stays field.before field.value }
{
    field.stays()
}

// Puts a value that changed, or the first one, after a mark.
fn put_change(line: &mut Line, app: &App, mark: &[u8], column: &Column)
    requires keyed { IsKeyed Text app.now column.now }
    requires mark { length mark.now ≤ 2 }
    requires room { length line.old.text + (length column.now.key + column_room) ≤ line.old.room }
    ensures text { line.new.text ≡ line.old.text
        ++ (mark.now ++ change_text app.now column.now.name column.now.field.before column.now.field.value) }
    ensures len { length line.new.text ≤ length line.old.text + (length column.now.key + column_room) }
    ensures room { line.new.room ≡ line.old.room }
{
    line.put(mark);
    line.put(column.key.as_slice());
    match column.field.before {
        None => line.put(b"="),
        Some(before) => {
            line.put(b" ");
            put_value(line, app, column.name, before);
            line.put(arrow(column.name));
        }
    }
    put_value(line, app, column.name, column.field.value);
}

// Puts what changed: this mark before the first change, and commas between them.
fn put_changes(line: &mut Line, app: &App, mark: &[u8], columns: &[Column])
    requires keyed { All (IsKeyed Text app.now) columns.now }
    requires mark { length mark.now ≤ 2 }
    requires room { length line.old.text + columns_room columns.now ≤ line.old.room }
    ensures text { line.new.text ≡ line.old.text ++ changes_told app.now mark.now (cells_of columns.now) }
    ensures len { length line.new.text ≤ length line.old.text + columns_room columns.now }
    ensures room { line.new.room ≡ line.old.room }
{
    let mut next = mark;
    for column in columns {
        if !stays(column.field) {
            put_change(line, app, next, column);
            next = b", ";
        }
    }
}

// Puts what is told of a scan.
fn put_told(line: &mut Line, app: &App, verdict: Verdict, columns: &[Column])
    requires keyed { All (IsKeyed Text app.now) columns.now }
    requires room { length line.old.text + (5 + columns_room columns.now) ≤ line.old.room }
    ensures text { line.new.text ≡ line.old.text ++ told app.now verdict (cells_of columns.now) }
    ensures len { length line.new.text ≤ length line.old.text + (5 + columns_room columns.now) }
    ensures room { line.new.room ≡ line.old.room }
{
    if is_trip(verdict) {
        line.put(b" TRIP");
        put_changes(line, app, b", ", columns);
    } else {
        put_changes(line, app, b" ", columns);
    }
}

// Begins a line with a time in ms.
fn put_time(line: &mut Line, now: u32)
    requires { 20 ≤ line.old.room }
    ensures text { line.new.text ≡ time_text now }
    ensures len { length line.new.text ≤ 16 }
    ensures room { line.new.room ≡ line.old.room }
{
    line.clear();
    line.put_count(now);
    let len = line.len();
    let blanks = b"      ".as_slice();
    if len < blanks.len() {
        line.put(&blanks[len..]);
    }
}

/// Makes the line of a scan for a person, where something is told of it; else it is empty.
pub(crate) fn make_text_line(
    line: &mut Line,
    app: &App,
    now: u32,
    verdict: Verdict,
    columns: &[Column],
)
    requires keyed { All (IsKeyed Text app.now) columns.now }
    requires room { frame_room + columns_room columns.now ≤ line.old.room }
    ensures text { line.new.text ≡ line_unless_none now (told app.now verdict (cells_of columns.now)) }
    ensures room { line.new.room ≡ line.old.room }
{
    put_time(line, now);
    let head = line.len();
    put_told(line, app, verdict, columns);
    if line.len() == head {
        line.clear();
    } else {
        line.put(b"\n");
    }
}
