// What the parameters of a request say.

ghost use Rattle.std.specs.Prelude.{◌≡◌, option_map};
ghost use Rattle.serde_json.specs.View.{items_view, view};
ghost use Rattle.ps_lsp_rpc.specs.Rpc.{value_of};
ghost use Rattle.ps_lsp_text.specs.Asking.{IsPlaceOf, changed_in, last_item, number_at, position_at, position_in};
ghost use Rattle.ps_lsp_text.specs.Asking.{text_at, uri_in};

use ps_base::Place;
use ps_lsp_rpc::Request;
use ps_text::{Position, byte_offset, line_at};
use serde_json::Value;

// A number of a position; the largest one where it is larger.
fn number_at(params: &Value, path: &str) -> Option<u32>
    ensures { result ≡ number_at path.now (view params.now) }
{
    let number = params.pointer(path)?.as_u64()?;
    Some(number.min(u64::from(u32::MAX)) as u32)
}

/// A text that the parameters say at a path.
pub(crate) fn text_at<'a>(request: &'a Request, path: &str) -> Option<&'a str>
    ensures { option_map (λ s. s.now) result ≡ text_at path.now (value_of request.now) }
{
    request.params()?.pointer(path)?.as_str()
}

/// The name of the text that a request is about.
pub(crate) fn uri_of(request: &Request) -> Option<&str>
    ensures { option_map (λ s. s.now) result ≡ uri_in (value_of request.now) }
{
    text_at(request, "/textDocument/uri")
}

// The position that these parameters say.
fn position_at(params: &Value) -> Option<Position>
    ensures { result ≡ position_at (view params.now) }
{
    Some(Position {
        line: number_at(params, "/position/line")?,
        character: number_at(params, "/position/character")?,
    })
}

/// The position that a request is about.
pub(crate) fn position_in(request: &Request) -> Option<Position>
    ensures { result ≡ position_in (value_of request.now) }
{
    position_at(request.params()?)
}

/// The place of a position of a text; the end of the line where its column is after that. It takes no memory, and
/// time linear in the text.
pub(crate) fn place_of(text: &[u8], position: Position) -> Place
    ensures { IsPlaceOf text.now position result }
{
    let line = position.line.saturating_add(1);
    let offset = byte_offset(line_at(text, line), position.character as usize);
    let column = offset.saturating_add(1).min(u32::MAX as usize) as u32;
    Place { line, column }
}

// The last of these changes.
fn last_of(changes: &[Value]) -> Option<&Value>
    ensures { option_map (λ v. view v.now) result ≡ last_item (items_view changes.now) }
{
    changes.last()
}

/// The text that a change leaves: the last of the whole texts that it gives.
pub(crate) fn changed_text(request: &Request) -> Option<&str>
    ensures { option_map (λ s. s.now) result ≡ changed_in (value_of request.now) }
{
    let changes = request.params()?.pointer("/contentChanges")?.as_array()?;
    last_of(changes)?.pointer("/text")?.as_str()
}
