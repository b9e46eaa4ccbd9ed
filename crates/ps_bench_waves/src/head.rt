// What stands before the first scan.

ghost use Rattle.std.specs.Prelude.{◌≡◌, ◌∷◌, ◌++◌, [], IfOk, OnOk, codes, map};
ghost use Rattle.csv.specs.Records.{fields_of, partial_of};
ghost use Rattle.csv.specs.Writing.{default_writer, row_text};
ghost use Rattle.ps_bench_waves.specs.Lines.{csv_names, head_text};
ghost use Rattle.ps_bench_waves.specs.Shown.{label};

use crate::format::Format;
use crate::shown::label_of;
use csv::{ByteRecord, WriterBuilder};
use ps_base::{Bytes, Memory};
use ps_bench_names::Name;
use ps_model::App;
use std::alloc::Global;

// Puts what stands for names after fields.
fn add_labels(
    alloc: Global,
    app: &App,
    names: &[Name],
    fields: &mut ByteRecord,
) -> Result<(), Memory>
    requires { partial_of fields.old ≡ [] }
    ensures { OnOk result (fields_of fields.new ≡ fields_of fields.old ++ map (label app.now) names.now) }
{
    for name in names {
        fields.push_field(label_of(alloc, app, *name)?.as_bytes())?;
    }
    Ok(())
}

// The names of the columns.
fn column_names(alloc: Global, app: &App, names: &[Name]) -> Result<ByteRecord, Memory>
    ensures { IfOk result (λ fields. fields_of fields ≡ csv_names app.now names.now) }
{
    let mut fields = ByteRecord::new(alloc);
    fields.push_field(b"@time")?;
    fields.push_field(b"@restart")?;
    fields.push_field(b"@trip")?;
    add_labels(alloc, app, names, &mut fields)?;
    Ok(fields)
}

// A record as CSV has it.
fn record_text(alloc: Global, fields: &ByteRecord) -> Result<Bytes, Memory>
    ensures { IfOk result (λ text. text ≡ row_text default_writer (fields_of fields.now)) }
{
    let mut writer = WriterBuilder::new().from_writer(Vec::new(alloc));
    if writer.write_byte_record(fields).is_err() {
        return Err(Memory);
    }
    match writer.into_inner() {
        Ok(text) => Bytes::from_slice(alloc, text.as_slice()),
        Err(_) => Err(Memory),
    }
}

/// What stands before the first scan, where these names are watched. An error means out of memory.
pub fn head_of(alloc: Global, app: &App, format: Format, names: &[Name]) -> Result<Bytes, Memory>
    ensures { IfOk result (λ text. text ≡ head_text app.now format names.now) }
{
    match format {
        Format::Text | Format::Json => Ok(Bytes::new(alloc)),
        Format::Csv => {
            let fields = column_names(alloc, app, names)?;
            record_text(alloc, &fields)
        }
    }
}
