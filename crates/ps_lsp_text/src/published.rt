// What the editor is told of a text.

ghost use Rattle.std.specs.Prelude.{◌≡◌, IfOk, IsTrue, map, option_map, option_to_list};
ghost use Rattle.serde_json.specs.View.{view};
ghost use Rattle.ps_lsp_text.specs.Findings.{all_of};
ghost use Rattle.ps_lsp_text.specs.Made.{Adds, members};
ghost use Rattle.ps_lsp_text.specs.Published.{diagnostic_data, diagnostics_data, notice_data, position_data};
ghost use Rattle.ps_lsp_text.specs.Published.{range_data, severity_of, text_of, with_code, withdrawal};

use crate::made::{MadeList, MadeObject};
use crate::{Finding, Findings, What};
use ps_base::{Bytes, Memory};
use ps_report::rule_name;
use ps_text::{Position, Range};
use serde_json::Value;
use std::alloc::Global;

// The text of bytes; nothing where they are no UTF-8.
pub(crate) fn words_in(bytes: &Bytes) -> &str
    ensures { result.now ≡ text_of bytes.now }
{
    match std::str::from_utf8(bytes.as_slice()) {
        Ok(words) => words,
        Err(_) => "",
    }
}

// A position as JSON.
fn position_value(alloc: Global, position: Position) -> Result<Value, Memory>
    ensures { IfOk result (λ v. view v ≡ position_data position) }
{
    let mut object = MadeObject::new(alloc);
    object.put_number("line", position.line);
    object.put_number("character", position.character);
    object.finish()
}

/// A range as JSON.
pub(crate) fn range_value(alloc: Global, range: Range) -> Result<Value, Memory>
    ensures { IfOk result (λ v. view v ≡ range_data range) }
{
    let start = position_value(alloc, range.start)?;
    let end = position_value(alloc, range.end)?;
    let mut object = MadeObject::new(alloc);
    object.put("start", start);
    object.put("end", end);
    object.finish()
}

// How bad a finding is, by the numbers of the protocol.
fn severity(what: What) -> u32
    ensures { result ≡ severity_of what }
{
    match what {
        What::Refused(_) => 1,
        What::Noted => 3,
    }
}

// The rule of a refusal as the code of its diagnostic.
fn put_code(object: &mut MadeObject, what: What)
    ensures { IsTrue object.new.is_whole →
        IsTrue object.old.is_whole × (members object.new ≡ with_code what (members object.old)) }
{
    match what {
        What::Refused(rule) => object.put_text("code", rule_name(rule)),
        What::Noted => (),
    }
}

// A finding as a diagnostic: of a refusal an error with the rule as its code, of a note an information.
fn diagnostic(alloc: Global, finding: &Finding) -> Result<Value, Memory>
    ensures { IfOk result (λ v. view v ≡ diagnostic_data finding.now) }
{
    let range = range_value(alloc, finding.range)?;
    let mut object = MadeObject::new(alloc);
    object.put_text("source", "plcsafe");
    object.put_number("severity", severity(finding.what));
    object.put("range", range);
    object.put_text("message", words_in(&finding.words));
    put_code(&mut object, finding.what);
    object.finish()
}

// Adds the diagnostics of these findings.
fn add_diagnostics(alloc: Global, list: &mut MadeList<Value>, found: &[Finding])
    ensures { Adds list.old.is_whole list.new.is_whole (map view list.old.list.items) (map view list.new.list.items)
        (map diagnostic_data found.now) }
{
    for finding in found {
        list.add(diagnostic(alloc, finding));
    }
}

// Adds the diagnostic of the first finding, if there is one.
fn add_first(alloc: Global, list: &mut MadeList<Value>, first: Option<&Finding>)
    ensures { Adds list.old.is_whole list.new.is_whole (map view list.old.list.items) (map view list.new.list.items)
        (map diagnostic_data (option_to_list (option_map (λ f. f.now) first.entry))) }
{
    if let Some(finding) = first {
        list.add(diagnostic(alloc, finding));
    }
}

// The diagnostics of findings, in their order.
fn diagnostics(alloc: Global, findings: &Findings) -> Result<Value, Memory>
    ensures { IfOk result (λ v. view v ≡ diagnostics_data (all_of findings.now)) }
{
    let mut list = MadeList::new(alloc);
    add_first(alloc, &mut list, findings.first.as_ref());
    add_diagnostics(alloc, &mut list, findings.more.as_slice());
    Ok(Value::Array(list.finish()?))
}

// The notice that these are the diagnostics of the text of a name.
fn notice(alloc: Global, uri: &str, list: Value) -> Result<Value, Memory>
    ensures { IfOk result (λ v. view v ≡ notice_data uri.now (view list)) }
{
    let mut params = MadeObject::new(alloc);
    params.put_text("uri", uri);
    params.put("diagnostics", list);
    let params = params.finish()?;
    let mut object = MadeObject::new(alloc);
    object.put_text("jsonrpc", "2.0");
    object.put_text("method", "textDocument/publishDiagnostics");
    object.put("params", params);
    object.finish()
}

/// The notice of what is found in the text of a name.
pub(crate) fn published(alloc: Global, uri: &str, findings: &Findings) -> Result<Value, Memory>
    ensures { IfOk result (λ v. view v ≡ notice_data uri.now (diagnostics_data (all_of findings.now))) }
{
    let list = diagnostics(alloc, findings)?;
    notice(alloc, uri, list)
}

/// The notice that nothing is found any more in the text of a name.
pub(crate) fn withdrawn(alloc: Global, uri: &str) -> Result<Value, Memory>
    ensures { IfOk result (λ v. view v ≡ withdrawal uri.now) }
{
    notice(alloc, uri, Value::Array(Vec::new(alloc)))
}
