// What stands for a name in a line.

ghost use Rattle.std.specs.Prelude.{◌≡◌, IfOk, string_bytes};
ghost use Rattle.json.specs.Print.{quoted};
ghost use Rattle.ps_bench_waves.specs.Lines.{key_text};

use crate::format::Format;
use crate::shown::label_of;
use json::Writer;
use ps_base::{Bytes, Memory};
use ps_bench_names::Name;
use ps_model::App;
use std::alloc::Global;

// A text as a string of JSON.
fn quoted(alloc: Global, text: &str) -> Result<Bytes, Memory>
    ensures { IfOk result (λ bytes. bytes ≡ quoted text.now) }
{
    let mut writer = Writer::new(Vec::new(alloc));
    writer.string(text)?;
    Bytes::from_slice(alloc, writer.into_inner().as_slice())
}

/// What stands for a name in a line of a format: its label for a person, and a string with a colon in JSON; in CSV the
/// header has it. An error means out of memory.
pub fn key_of(alloc: Global, app: &App, format: Format, name: Name) -> Result<Bytes, Memory>
    ensures { IfOk result (λ key. key ≡ key_text format app.now name) }
{
    let label = label_of(alloc, app, name)?;
    match format {
        Format::Text | Format::Csv => Bytes::from_slice(alloc, label.as_bytes()),
        Format::Json => {
            let mut key = quoted(alloc, label.as_str())?;
            key.extend_from_slice(b":")?;
            Ok(key)
        }
    }
}
