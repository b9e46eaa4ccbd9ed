// The text of a page.

ghost use Rattle.std.specs.Prelude.{◌≡◌, ◌++◌, IsTrue, OnOk};
ghost use Rattle.ps_bench_report.specs.Writing.{begin_text, end_text, piece_text, written};

use crate::names::{Tag, key_name, tag_name};
use crate::page::{Page, Piece};
use ps_base::{Bytes, Memory};
use ps_text::{add_attribute, add_escaped};

/// The beginning of every page: its language, its letters, and how it looks on a screen and on paper.
pub(crate) const PROLOGUE: &[u8] = b"<!DOCTYPE html>
<html lang=\"en\">
<head>
<meta charset=\"utf-8\">
<meta name=\"viewport\" content=\"width=device-width, initial-scale=1\">
<style>
:root { color-scheme: light; }
body { margin: 0; background: #fff; color: #111; font: 16px/1.5 system-ui, sans-serif; }
main { max-width: 60rem; margin: 0 auto; padding: 1rem; }
h1, h2, h3, p, li, th, td, figcaption { overflow-wrap: anywhere; }
h2 { margin-top: 2.5rem; border-bottom: 2px solid #111; }
h3 { margin-top: 2rem; }
table { width: 100%; border-collapse: collapse; }
caption { padding: .3rem 0; text-align: left; font-weight: bold; }
th, td { padding: .2rem .5rem; border: 1px solid #767676; text-align: left; vertical-align: top; }
thead th { background: #eee; overflow-wrap: normal; }
.digest, .time { font-family: ui-monospace, monospace; }
.fail { color: #900; font-weight: bold; text-decoration: underline; }
pre { padding: .5rem; border: 1px solid #767676; overflow-x: auto; font: 12px/1.45 ui-monospace, monospace; }
figure { margin: 1rem 0; overflow-x: auto; }
svg { display: block; margin: .5rem 0; }
svg text { fill: #111; font: 11px system-ui, sans-serif; }
svg .name { text-anchor: end; }
svg .fail { fill: #900; }
svg path { fill: none; stroke: #111; stroke-width: 1.6; }
svg .base { stroke: #bbb; stroke-width: 1; }
svg .tick { stroke: #ccc; stroke-width: 1; }
svg .mark { stroke: #555; stroke-width: 1; stroke-dasharray: 3 3; }
svg .event { stroke-width: 2.5; }
svg .break { stroke-width: 1; }
svg rect { stroke: #333; fill: #dbe9f6; }
svg .idle { fill: #f2f2f2; }
svg .well { fill: #d8efd3; }
svg .error { fill: #f9d7d0; stroke-width: 2; }
@page { size: A4; margin: 15mm; }
@media print {
body { font-size: 11pt; }
main { max-width: none; padding: 1px; }
pre { overflow: visible; white-space: pre-wrap; overflow-wrap: anywhere; font-size: 8.5pt; }
figure { overflow: visible; }
svg { max-width: 100%; height: auto; break-inside: avoid; }
tr { break-inside: avoid; }
h2, h3, caption { break-after: avoid; }
}
</style>
";

/// The end of the head, and the beginning of the body.
pub(crate) const BODY: &[u8] = b"\n</head>\n<body>\n";

/// The end of every page.
pub(crate) const EPILOGUE: &[u8] = b"</body>\n</html>\n";

// The beginning of an element.
fn add_begin(text: &mut Bytes, tag: Tag) -> Result<(), Memory>
    ensures { OnOk result (text.new ≡ text.old ++ begin_text tag) }
{
    text.extend_from_slice(b"<")?;
    text.extend_from_slice(tag_name(tag))
}

// The end of an element.
fn add_end(text: &mut Bytes, tag: Tag) -> Result<(), Memory>
    ensures { OnOk result (text.new ≡ text.old ++ end_text tag) }
{
    text.extend_from_slice(b"</")?;
    text.extend_from_slice(tag_name(tag))?;
    text.extend_from_slice(b">")
}

// A piece.
fn add_piece(text: &mut Bytes, piece: &Piece) -> Result<(), Memory>
    ensures { OnOk result (text.new ≡ text.old ++ piece_text piece.now) }
{
    match piece {
        Piece::Prologue => text.extend_from_slice(PROLOGUE),
        Piece::Body => text.extend_from_slice(BODY),
        Piece::Epilogue => text.extend_from_slice(EPILOGUE),
        Piece::Begin(tag) => add_begin(text, *tag),
        Piece::Attribute(key, value) => add_attribute(text, key_name(*key), value.as_slice()),
        Piece::Inside => text.extend_from_slice(b">"),
        Piece::Alone => text.extend_from_slice(b"/>"),
        Piece::Value(value) => add_escaped(text, value.as_slice()),
        Piece::End(tag) => add_end(text, *tag),
    }
}

/// The text of a page at the end of a text: its pieces, one after another. An error means out of memory, or was for a
/// piece of the page, so that it is not whole.
pub(crate) fn add_page(text: &mut Bytes, page: &Page) -> Result<(), Memory>
    ensures whole { OnOk result (IsTrue page.now.whole) }
    ensures text { OnOk result (text.new ≡ text.old ++ written page.now.pieces) }
{
    if !page.is_whole() {
        return Err(Memory);
    }
    for piece in page.pieces() {
        add_piece(text, piece)?;
    }
    Ok(())
}
