// What an output demands, for whoever asks at its name.

ghost use Rattle.std.specs.Prelude.{◌≡◌, IfOk, None, Some, if◌then◌else◌, option_map};
ghost use Rattle.std.specs.Option.{option_or};
ghost use Rattle.ps_base.specs.LetterCase.{is_same_name};
ghost use Rattle.ps_lsp_text.specs.Demands.{IsDemandOfText, demand_among, is_demand_of};

use ps_accepted::demand_text;
use ps_base::{Bytes, Fail, Memory};
use std::alloc::Global;

// Whether a name is another one, without letter case.
fn is_same_name(name: &[u8], other: &[u8]) -> bool
    ensures { result ≡ is_same_name name.now other.now }
{
    name.eq_ignore_ascii_case(other)
}

// Whether a line of demands is that of a name, without letter case.
fn is_of(line: &[u8], name: &[u8]) -> bool
    ensures { result ≡ is_demand_of name.now line.now }
{
    let (front, back) = line.split_at(name.len().min(line.len()));
    is_same_name(front, name) && back.starts_with(b" needs ")
}

// The line of a name that was found before, and else another line if that is of the name.
fn first_of<'a>(found: Option<&'a [u8]>, line: &'a [u8], name: &[u8]) -> Option<&'a [u8]>
    ensures { option_map (λ l. l.now) result ≡ option_or (option_map (λ l. l.now) found.entry)
        (if is_demand_of name.now line.now then Some line.now else None) }
{
    if found.is_some() {
        return found;
    }
    if is_of(line, name) { Some(line) } else { None }
}

// The line of a name among the lines of demands.
fn line_of<'a>(lines: &'a [u8], name: &[u8]) -> Option<&'a [u8]>
    ensures { option_map (λ l. l.now) result ≡ demand_among name.now lines.now }
{
    let mut found = None;
    for line in lines.split(|byte| *byte == b'\n') {
        found = first_of(found, line, name);
    }
    found
}

// The bytes of a line, if there is one.
fn copy_of(alloc: Global, line: Option<&[u8]>) -> Result<Option<Bytes>, Memory>
    ensures { IfOk result (λ copy. copy ≡ option_map (λ l. l.now) line.entry) }
{
    match line {
        Some(line) => Ok(Some(Bytes::from_slice(alloc, line)?)),
        None => Ok(None),
    }
}

/// What the SAFEBOOL output of a name demands in the application of a text, as `demand` writes it:
/// `S_Ram needs S_EStop AND S_G1`. Nothing where the application is refused, or the demand of one of its outputs is too
/// large, or it has no such output; names are without letter case.
pub fn demand_told(alloc: Global, text: &[u8], name: &[u8]) -> Result<Option<Bytes>, Memory>
    ensures { IfOk result (IsDemandOfText text.now name.now) }
{
    match demand_text(alloc, text) {
        Ok(demanded) => {
            let (_, lines) = demanded.into_parts();
            match lines {
                Ok(lines) => copy_of(alloc, line_of(lines.as_slice(), name)),
                Err(Fail::Memory) => Err(Memory),
                Err(Fail::Refused(_)) => Ok(None),
            }
        }
        Err(Fail::Memory) => Err(Memory),
        Err(Fail::Refused(_)) => Ok(None),
    }
}
