// A text as it is, beside the last one of its name that parsed.

ghost use Rattle.std.specs.Prelude.{◌≡◌, ℕ, List, IfOk, IfNone, IfSome, MatchBool, option_map};
ghost use Rattle.ps_model.specs.declared.kind.Kind.{Kind};
ghost use Rattle.ps_lsp_text.specs.Looking.{AreSeen, AreSeenBy};
ghost use Rattle.ps_lsp_text.specs.Calls.{IsCall};
ghost use Rattle.ps_lsp_text.specs.Declaring.{HoldsFor, IsInstance, IsTypeOf, IsTyped, IsUndeclared, declaring_tokens};

use crate::declared::{bracket_before, declaration_of, declared_type};
use crate::looking::{name_at, tokens_of};
use ps_base::{Memory, Place};
use ps_lexer::{Token, TokenList};
use ps_model::{Kind, kind_named};
use std::alloc::Global;

/// What is asked about: a place of a text, and the last text of its name that parsed, where this one does not.
#[derive(Clone, Copy)]
pub struct Asked<'a> {
    /// The text as it is.
    pub text: &'a [u8],
    /// The last one before it that parsed, if it does not parse itself and one did.
    pub parsed: Option<&'a [u8]>,
    /// The place.
    pub place: Place,
}

/// The tokens of both texts: what is declared is looked for among today's first.
pub(crate) struct Sight {
    today: TokenList,
    earlier: TokenList,
}

impl Drop for Sight {
    // One call for whoever owns one, in place of a walk through all that it holds.
    fn drop(self) {
        let Sight {
            today: _,
            earlier: _,
        } = self;
    }
}

/// A declared name: the text that declares it, and the number of its token there.
#[derive(Clone, Copy)]
pub(crate) struct Declared {
    pub(crate) is_today: bool,
    pub(crate) at: usize,
}

impl Sight {
    /// The tokens of what is asked about.
    pub(crate) fn of(alloc: Global, text: &[u8], parsed: Option<&[u8]>) -> Result<Sight, Memory>
        ensures today { IfOk result (λ sight. AreSeen text.now sight.today) }
        ensures earlier { IfOk result (λ sight. AreSeenBy (option_map (λ text. text.now) parsed.entry) sight.earlier) }
    {
        let today = tokens_of(alloc, text)?;
        let earlier = match parsed {
            Some(parsed) => tokens_of(alloc, parsed)?,
            None => TokenList::new(alloc),
        };
        Ok(Sight { today, earlier })
    }

    /// Today's tokens.
    pub(crate) fn today(&self) -> &[Token]
        ensures { result.now ≡ self.now.today }
    {
        self.today.as_slice()
    }

    /// Those of the last text that parsed; none where today's does.
    pub(crate) fn earlier(&self) -> &[Token]
        ensures { result.now ≡ self.now.earlier }
    {
        self.earlier.as_slice()
    }

    /// The tokens of the text that declares a name.
    pub(crate) fn tokens_with(&self, declared: Declared) -> &[Token]
        ensures by_text { MatchBool declared.is_today (result.now ≡ self.now.today) (result.now ≡ self.now.earlier) }
        ensures are { result.now ≡ declaring_tokens self.now.today self.now.earlier declared }
    {
        if declared.is_today {
            self.today()
        } else {
            self.earlier()
        }
    }

    /// Where a name is declared for one of today's tokens: in the text as it is, or else in the last one that parsed.
    pub(crate) fn declaration(&self, name: &[u8], upto: usize) -> Option<Declared>
        ensures some { IfSome result (HoldsFor self.now.today self.now.earlier name.now upto) }
        ensures none { IfNone result (IsUndeclared self.now.today name.now × IsUndeclared self.now.earlier name.now) }
    {
        if let Some(at) = declaration_of(self.today(), name, upto) {
            return Some(Declared { is_today: true, at });
        }
        let at = declaration_of(self.earlier(), name, self.earlier().len())?;
        Some(Declared {
            is_today: false,
            at,
        })
    }

    /// The type of a declared name.
    pub(crate) fn type_of(&self, declared: Declared) -> Option<&[u8]>
        ensures { IsTypeOf (declaring_tokens self.now.today self.now.earlier declared) declared.at
            (option_map (λ name. name.now) result) }
    {
        declared_type(self.tokens_with(declared), declared.at)
    }

    // The type with which the name is declared that is one of today's tokens.
    fn type_at(&self, at: usize) -> Option<&[u8]>
        ensures some { IfSome result (λ ty. IsTyped self.now.today self.now.earlier at ty.now) }
        ensures none { IfNone result ((ty : List ℕ) → IsTyped self.now.today self.now.earlier at ty → ⊥) }
    {
        let name = name_at(self.today(), at)?;
        self.type_of(self.declaration(name, at)?)
    }

    /// The kind of the instance whose name is one of today's tokens.
    pub(crate) fn kind_at(&self, at: usize) -> Option<Kind>
        ensures some { IfSome result (IsInstance self.now.today self.now.earlier at) }
        ensures none { IfNone result ((kind : Kind) → IsInstance self.now.today self.now.earlier at kind → ⊥) }
    {
        kind_named(self.type_at(at)?)
    }

    /// The bracket of the call of an instance that is open before one of today's tokens, and the kind of the instance.
    pub(crate) fn call_before(&self, at: usize) -> Option<(usize, Kind)>
        ensures some { IfSome result (λ call. IsCall self.now.today self.now.earlier at call.0 call.1) }
        ensures none { IfNone result ((bracket : ℕ) (kind : Kind) → IsCall self.now.today self.now.earlier at bracket kind → ⊥) }
    {
        let bracket = bracket_before(self.today(), at)?;
        if bracket == 0 {
            return None;
        }
        match self.kind_at(bracket - 1) {
            Some(kind) => Some((bracket, kind)),
            None => None,
        }
    }
}
