// What is told of what stands at a place.

ghost use Rattle.std.specs.Prelude.{◌≡◌, ◌↔◌, ◌+◌, ◌-◌, ℕ, List, Bool, true, false, IsTrue, IfOk, IfSome, IfNone, codes, option_map};
ghost use Rattle.ps_base.specs.LetterCase.{SameName};
ghost use Rattle.ps_model.specs.declared.kind.Kind.{Kind};
ghost use Rattle.ps_lsp_text.specs.Calls.{IsCall};
ghost use Rattle.ps_lsp_text.specs.Declaring.{IsInstance};
ghost use Rattle.ps_lsp_text.specs.Driving.{IsDriverTold};
ghost use Rattle.ps_lsp_text.specs.Hovering.{IsDeclaredTold, IsHovered, IsInstanceTold, IsNameTold, IsOtherTold, IsPinPlace};
ghost use Rattle.ps_lsp_text.specs.Hovering.{IsPinTold, IsSignalTold, IsTypedTold, driven_from, hovered_of, is_assign};
ghost use Rattle.ps_lsp_text.specs.Hovering.{is_of_inputs, is_of_outputs, is_output_place};
ghost use Rattle.ps_lsp_text.specs.Looking.{form_in};
ghost use Rattle.ps_lsp_text.specs.Made.{Extends};

use crate::declared::section_at;
use crate::described::{add_kind, add_pin, pin_named, section_told};
use crate::driving::add_driver;
use crate::looking::{form_at, is_dot, name_at, name_touched};
use crate::made::MadeText;
use crate::sight::{Asked, Declared, Sight};
use ps_base::{Bytes, Memory};
use ps_lexer::{Form, Token, Word};
use ps_model::{Kind, kind_named};
use std::alloc::Global;

/// What is told of a place.
pub struct Hovered {
    /// The words, in lines.
    pub words: Bytes,
    /// The SAFEBOOL output that stands there, if one does: what it demands is to be told besides.
    pub output: Option<Bytes>,
}

impl Drop for Hovered {
    // One call for whoever owns one, in place of a walk through all that it holds.
    fn drop(self) {
        let Hovered {
            words: _,
            output: _,
        } = self;
    }
}

impl Hovered {
    /// The words, and the output. It takes no memory.
    pub fn into_parts(self) -> (Bytes, Option<Bytes>)
        ensures words { result.0 ≡ self.words }
        ensures output { result.1 ≡ self.output }
    {
        let Hovered { words, output } = self;
        (words, output)
    }
}

// What is told of the place of this name by these words, and, if it is a SAFEBOOL output, the name; nothing if there are
// no words.
fn hovered_of(
    alloc: Global,
    name: &[u8],
    words: MadeText,
    is_output: bool,
) -> Result<Option<Hovered>, Memory>
    ensures { IfOk result (λ told. IsTrue words.is_whole × (told ≡ hovered_of name.now words.bytes is_output)) }
{
    let words = words.finish()?;
    if words.len() == 0 {
        return Ok(None);
    }
    let output = if is_output {
        Some(Bytes::from_slice(alloc, name)?)
    } else {
        None
    };
    Ok(Some(Hovered { words, output }))
}

// From which token on statements may drive a declared name.
fn driven_from(declared: Declared) -> usize
    ensures { result ≡ driven_from declared }
{
    if declared.is_today { declared.at } else { 0 }
}

// Tells of a declared name what drives it among today's tokens.
fn tell_driver(words: &mut MadeText, asked: Asked, sight: &Sight, name: &[u8], declared: Declared)
    ensures { (told : List ℕ)
        × IsDriverTold asked.entry.text.now sight.now.today name.now (driven_from declared) told
        × Extends words.old words.new told }
{
    add_driver(
        words,
        asked.text,
        sight.today(),
        name,
        driven_from(declared),
    );
}

// Whether a section declares inputs.
fn is_of_inputs(section: Option<Word>) -> bool
    ensures { result ≡ is_of_inputs section }
{
    matches!(section, Some(Word::VarInput))
}

// Whether a section declares outputs.
fn is_of_outputs(section: Option<Word>) -> bool
    ensures { result ≡ is_of_outputs section }
{
    matches!(section, Some(Word::VarOutput))
}

// Whether a signal of this section and type is a SAFEBOOL output.
fn is_safe_output(section: Option<Word>, ty: &[u8]) -> bool
    ensures { IsTrue result ↔ ((is_of_outputs section ≡ true) × SameName ty.now (codes "SAFEBOOL")) }
{
    is_of_outputs(section) && ty.eq_ignore_ascii_case(b"SAFEBOOL")
}

// Tells of a signal of a type its section, and what drives it. Whether it is a SAFEBOOL output.
fn tell_signal(
    words: &mut MadeText,
    asked: Asked,
    sight: &Sight,
    name: &[u8],
    declared: Declared,
    ty: &[u8],
) -> bool
    ensures { (told : List ℕ)
        × IsSignalTold asked.entry.text.now sight.now.today sight.now.earlier name.now declared ty.now told result
        × Extends words.old words.new told }
{
    let section = section_at(sight.tokens_with(declared), declared.at);
    words.add(section_told(section));
    if is_of_inputs(section) {
        return false;
    }
    tell_driver(words, asked, sight, name, declared);
    is_safe_output(section, ty)
}

// Tells of an instance of a kind what calls it, and its kind.
fn tell_instance(
    words: &mut MadeText,
    asked: Asked,
    sight: &Sight,
    name: &[u8],
    declared: Declared,
    kind: Kind,
)
    ensures { (told : List ℕ) × IsInstanceTold asked.entry.text.now sight.now.today name.now declared kind told
        × Extends words.old words.new told }
{
    words.add(b", an instance");
    tell_driver(words, asked, sight, name, declared);
    words.add(b"\n\n");
    add_kind(words, kind);
}

// Tells of a name that is declared with a type what it is by that. Whether it is a SAFEBOOL output.
fn tell_typed(
    words: &mut MadeText,
    asked: Asked,
    sight: &Sight,
    name: &[u8],
    declared: Declared,
    ty: &[u8],
) -> bool
    ensures { (told : List ℕ)
        × IsTypedTold asked.entry.text.now sight.now.today sight.now.earlier name.now declared ty.now told result
        × Extends words.old words.new told }
{
    match kind_named(ty) {
        Some(kind) => {
            tell_instance(words, asked, sight, name, declared, kind);
            false
        }
        None => tell_signal(words, asked, sight, name, declared, ty),
    }
}

// Tells of a declared name its type, and of an instance what calls it and its kind, of a signal its section and what
// drives it. Whether it is a SAFEBOOL output.
fn tell_declared(
    words: &mut MadeText,
    asked: Asked,
    sight: &Sight,
    name: &[u8],
    declared: Declared,
) -> bool
    ensures { (told : List ℕ)
        × IsDeclaredTold asked.entry.text.now sight.now.today sight.now.earlier name.now declared told result
        × Extends words.old words.new told }
{
    let Some(ty) = sight.type_of(declared) else {
        return false;
    };
    words.add(name);
    words.add(b" : ");
    words.add(ty);
    tell_typed(words, asked, sight, name, declared, ty)
}

// Whether a token stands after another one and a dot.
fn is_output_place(tokens: &[Token], at: usize) -> bool
    ensures { result ≡ is_output_place tokens.now at }
{
    at >= 2 && is_dot(tokens, at - 1)
}

// Whether an assignment sign stands after a token.
fn is_before_assign(tokens: &[Token], at: usize) -> bool
    ensures { result ≡ is_assign (form_in tokens.now (at + 1)) }
{
    at < tokens.len() && matches!(form_at(tokens, at + 1), Some(Form::Assign))
}

// The kind whose output the name is to be that is a token, after the dot of an instance.
fn kind_of_output(sight: &Sight, at: usize) -> Option<(Kind, bool)>
    ensures some { IfSome result (λ pin. IsInstance sight.now.today sight.now.earlier (at - 2) pin.0 × (pin.1 ≡ false)) }
    ensures none { IfNone result ((kind : Kind) → IsInstance sight.now.today sight.now.earlier (at - 2) kind → ⊥) }
{
    match sight.kind_at(at.saturating_sub(2)) {
        Some(kind) => Some((kind, false)),
        None => None,
    }
}

// The kind whose input the name is to be that is a token, in the call of an instance.
fn kind_of_input(sight: &Sight, at: usize) -> Option<(Kind, bool)>
    ensures some { IfSome result (λ pin.
        ((bracket : ℕ) × IsCall sight.now.today sight.now.earlier at bracket pin.0) × (pin.1 ≡ true)) }
    ensures none { IfNone result ((bracket : ℕ) (kind : Kind) →
        IsCall sight.now.today sight.now.earlier at bracket kind → ⊥) }
{
    match sight.call_before(at) {
        Some((_, kind)) => Some((kind, true)),
        None => None,
    }
}

// The kind whose pin the name is to be that is a token, and whether it is an input: after the dot of an instance, or
// before an assignment sign in its call. Nothing where it is none of a pin.
fn kind_of_pin(sight: &Sight, at: usize) -> Option<(Kind, bool)>
    ensures some { IfSome result (λ pin. IsPinPlace sight.now.today sight.now.earlier at pin.0 pin.1) }
    ensures none { IfNone result ((kind : Kind) (is_input : Bool) →
        IsPinPlace sight.now.today sight.now.earlier at kind is_input → ⊥) }
{
    if is_output_place(sight.today(), at) {
        return kind_of_output(sight, at);
    }
    if is_before_assign(sight.today(), at) {
        return kind_of_input(sight, at);
    }
    None
}

// Tells of the pin of a kind that has a name, if there is one.
fn tell_pin(words: &mut MadeText, kind: Kind, is_input: bool, name: &[u8])
    ensures { (told : List ℕ) × IsPinTold kind name.now is_input told × Extends words.old words.new told }
{
    if let Some(pin) = pin_named(kind, name, is_input) {
        add_pin(words, kind, pin);
    }
}

// Tells of the name that is a token and no pin: of a kind, or of what is declared. Whether it is a SAFEBOOL output.
fn tell_other(words: &mut MadeText, asked: Asked, sight: &Sight, at: usize, name: &[u8]) -> bool
    ensures { (told : List ℕ)
        × IsOtherTold asked.entry.text.now sight.now.today sight.now.earlier at name.now told result
        × Extends words.old words.new told }
{
    if let Some(kind) = kind_named(name) {
        add_kind(words, kind);
        return false;
    }
    match sight.declaration(name, at) {
        Some(declared) => tell_declared(words, asked, sight, name, declared),
        None => false,
    }
}

// Tells of the name that is a token. Whether it is a SAFEBOOL output.
fn tell_name(words: &mut MadeText, asked: Asked, sight: &Sight, at: usize, name: &[u8]) -> bool
    ensures { (told : List ℕ)
        × IsNameTold asked.entry.text.now sight.now.today sight.now.earlier at name.now told result
        × Extends words.old words.new told }
{
    match kind_of_pin(sight, at) {
        Some((kind, is_input)) => {
            tell_pin(words, kind, is_input, name);
            false
        }
        None => tell_other(words, asked, sight, at, name),
    }
}

/// What is told of the name at a place of a text: of a kind its pins, each with its type and the value that it has
/// where it is free, and its states in words; of a pin the same of it; of a declared name its type and section, and the
/// statement that drives it, and of an instance its kind. Nothing where no name stands there that is known. A name
/// that the text does not declare is looked for in the last text that parsed.
pub fn hover(alloc: Global, asked: Asked) -> Result<Option<Hovered>, Memory>
    ensures { IfOk result (IsHovered asked.entry.text.now (option_map (λ text. text.now) asked.entry.parsed) asked.entry.place) }
{
    let sight = Sight::of(alloc, asked.text, asked.parsed)?;
    let Some(at) = name_touched(sight.today(), asked.place) else {
        return Ok(None);
    };
    let Some(name) = name_at(sight.today(), at) else {
        return Ok(None);
    };
    let mut words = MadeText::of(Bytes::new(alloc));
    let is_output = tell_name(&mut words, asked, &sight, at, name);
    hovered_of(alloc, name, words, is_output)
}
