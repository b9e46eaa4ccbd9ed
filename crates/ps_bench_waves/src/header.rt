// The declarations of wires.

ghost use Rattle.std.specs.Prelude.{◌≡◌, ◌<◌, ◌≤◌, ◌++◌, [], IfOk, OnOk, length, codes, flat_map};
ghost use Rattle.ps_bench_waves.specs.declared.identifier.TheConstants.{MOST_WIRES};
ghost use Rattle.ps_bench_waves.specs.Declarations.{opening_byte, opening, closing_byte, closing, between_scopes};
ghost use Rattle.ps_bench_waves.specs.Declarations.{type_text, range_text, wire_text, wires_text, header_text};

use crate::wire::{Shape, Wire};
use crate::{Identifier, MOST_WIRES};
use ps_base::{Bytes, Memory};
use std::alloc::Global;

/// The declarations of wires, by IEEE 1364: times in milliseconds, scopes that are opened and closed, and a variable
/// for each wire, with the identifier of its number in this list. Wires of one scope are to stand together: their scope
/// is opened anew where another one stands between.
///
/// A dump has them in front of its value changes. `Err` comes if memory runs out, and for more than 830,584 wires,
/// which have no identifiers.
pub fn header_of(alloc: Global, wires: &[Wire]) -> Result<Bytes, Memory>
    ensures { IfOk result (λ text. text ≡ header_text wires.now) }
{
    if wires.len() > MOST_WIRES {
        return Err(Memory);
    }
    let mut text = Bytes::from_slice(alloc, b"$timescale 1 ms $end\n")?;
    add_wires(&mut text, wires)?;
    text.extend_from_slice(b"$enddefinitions $end\n")?;
    Ok(text)
}

// Adds the wires, and what closes the last scope.
fn add_wires(text: &mut Bytes, wires: &[Wire]) -> Result<(), Memory>
    requires { length wires.now ≤ MOST_WIRES }
    ensures { OnOk result (text.new ≡ text.old ++ wires_text [] 0 wires.now) }
{
    let mut opened: &[u8] = b"";
    let mut number = 0;
    for wire in wires {
        let scope = wire.scope.as_str().as_bytes();
        add_scopes(text, opened, scope)?;
        add_wire(text, number, wire)?;
        opened = scope;
        number += 1;
    }
    add_closing(text, opened)
}

// Adds the lines from one scope to another.
fn add_scopes(text: &mut Bytes, opened: &[u8], scope: &[u8]) -> Result<(), Memory>
    ensures { OnOk result (text.new ≡ text.old ++ between_scopes opened.now scope.now) }
{
    if opened == scope {
        return Ok(());
    }
    add_closing(text, opened)?;
    add_opening(text, scope)
}

// Adds the lines that open a scope and those around it.
#[tactic(auto, using(crate::proofs::Steps::opening_some))]
fn add_opening(text: &mut Bytes, scope: &[u8]) -> Result<(), Memory>
    ensures { OnOk result (text.new ≡ text.old ++ opening scope.now) }
{
    if scope.is_empty() {
        return Ok(());
    }
    add_some_opening(text, scope)
}

// Adds these lines for a scope that has a name.
fn add_some_opening(text: &mut Bytes, scope: &[u8]) -> Result<(), Memory>
    requires { 0 < length scope.now }
    ensures { OnOk result (text.new ≡ text.old
        ++ (codes "$scope module " ++ (flat_map opening_byte scope.now ++ codes " $end\n"))) }
{
    text.extend_from_slice(b"$scope module ")?;
    add_names(text, scope)?;
    text.extend_from_slice(b" $end\n")
}

// Adds the names of scopes, of which each but the last ends its line.
fn add_names(text: &mut Bytes, names: &[u8]) -> Result<(), Memory>
    ensures { OnOk result (text.new ≡ text.old ++ flat_map opening_byte names.now) }
{
    for byte in names {
        add_name_byte(text, *byte)?;
    }
    Ok(())
}

// Adds a byte of them.
fn add_name_byte(text: &mut Bytes, byte: u8) -> Result<(), Memory>
    ensures { OnOk result (text.new ≡ text.old ++ opening_byte byte) }
{
    if byte == b'.' {
        text.extend_from_slice(b" $end\n$scope module ")
    } else {
        text.push(byte)
    }
}

// Adds the lines that close a scope and those around it.
fn add_closing(text: &mut Bytes, scope: &[u8]) -> Result<(), Memory>
    ensures { OnOk result (text.new ≡ text.old ++ closing scope.now) }
{
    if scope.is_empty() {
        return Ok(());
    }
    add_dots(text, scope)?;
    text.extend_from_slice(b"$upscope $end\n")
}

// Adds a line for each dot among the names of scopes.
fn add_dots(text: &mut Bytes, names: &[u8]) -> Result<(), Memory>
    ensures { OnOk result (text.new ≡ text.old ++ flat_map closing_byte names.now) }
{
    for byte in names {
        if *byte == b'.' {
            text.extend_from_slice(b"$upscope $end\n")?;
        }
    }
    Ok(())
}

// Adds the line of a wire.
fn add_wire(text: &mut Bytes, number: usize, wire: &Wire) -> Result<(), Memory>
    requires { number < MOST_WIRES }
    ensures { OnOk result (text.new ≡ text.old ++ wire_text number wire.now) }
{
    text.extend_from_slice(type_text(wire.shape))?;
    text.extend_from_slice(Identifier::of(number).as_slice())?;
    text.extend_from_slice(b" ")?;
    text.extend_from_slice(wire.name.as_str().as_bytes())?;
    text.extend_from_slice(range_text(wire.shape))
}

// The type of a wire and the number of its bits.
fn type_text(shape: Shape) -> &'static [u8]
    ensures { result.now ≡ type_text shape }
{
    match shape {
        Shape::Bit => b"$var wire 1 ",
        Shape::Code => b"$var wire 16 ",
        Shape::Count => b"$var wire 64 ",
        Shape::Words => b"$var string 1 ",
    }
}

// The numbers of its bits, where there are several, and the end of its line.
fn range_text(shape: Shape) -> &'static [u8]
    ensures { result.now ≡ range_text shape }
{
    match shape {
        Shape::Bit | Shape::Words => b" $end\n",
        Shape::Code => b" [15:0] $end\n",
        Shape::Count => b" [63:0] $end\n",
    }
}
