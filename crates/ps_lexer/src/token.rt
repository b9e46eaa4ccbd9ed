// Tokens, with their spans and places.

ghost use Rattle.std.specs.Prelude.{◌≡◌, ◌<◌, [], ◌∷◌, ◌++◌, OnOk, OnErr, length, slice_get};
ghost use Rattle.ps_lexer.specs.declared.token.Token.{Token};
ghost use Rattle.ps_lexer.specs.Spelling.{IsTokenList, IsWellFormed};

use ps_base::limits::MOST_TOKENS;
use ps_base::{Bytes, Memory, Place};
use std::alloc::Global;
use std::marker::Model;

/// A keyword of the language, spelt in any letter case.
#[derive(Clone, Copy, PartialEq)]
pub enum Word {
    Program,
    EndProgram,
    VarInput,
    VarOutput,
    Var,
    EndVar,
    And,
    Or,
    True,
    False,
}

/// What a token is. The sign `&` is the word And.
#[derive(Drop)]
pub enum Form {
    Word(Word),
    /// A name, with its bytes as they are spelt.
    Name(Bytes),
    /// A TIME literal, with its value in ms.
    Time(u32),
    Assign,
    Colon,
    Semicolon,
    Comma,
    LeftBracket,
    RightBracket,
    Dot,
}

/// A token: its span is `from` up to but without `upto`, and its place is that of its first byte.
#[derive(Drop)]
pub struct Token {
    pub form: Form,
    pub from: u32,
    pub upto: u32,
    pub place: Place,
}

/// Tokens in the order of the text, which contracts see as a list. Each name among them is a name of the language,
/// each TIME literal is at most `LARGEST_TIME` ms, and there are at most `MOST_TOKENS` of them.
#[derive(Drop)]
pub struct TokenList {
    items: Vec<Token>,
}

impl Model for TokenList {
    ghost use Rattle.std.specs.Prelude.{List};
    ghost use Rattle.ps_lexer.specs.declared.token.Token.{Token};
    ghost use Rattle.ps_lexer.specs.Spelling.{IsTokenList};

    ghost Value = { List Token };

    ghost view = { λ t. t.items.items };

    ghost invariant = { λ t. IsTokenList t.items.items };
}

/// The tokens of a text, and the place one past its last byte.
#[derive(Drop)]
pub struct Tokens {
    pub list: TokenList,
    pub end: Place,
}

impl TokenList {
    /// No tokens. It takes no memory.
    pub fn new(alloc: Global) -> TokenList
        ensures { result ≡ [] }
    {
        TokenList {
            items: Vec::new(alloc),
        }
    }

    /// One more token at the end.
    pub fn push(&mut self, token: Token) -> Result<(), Memory>
        requires few { length self.old < MOST_TOKENS }
        requires form { IsWellFormed token.form }
        ensures ok { OnOk result (self.new ≡ self.old ++ token ∷ []) }
        ensures err { OnErr result (self.new ≡ self.old) }
    {
        self.items.push(token)?;
        Ok(())
    }

    /// How many there are.
    pub fn len(&self) -> usize
        ensures { result ≡ length self.now }
    {
        self.items.len()
    }

    /// The token at a place of the list.
    pub fn at(&self, i: usize) -> &Token
        requires { i < length self.now }
        ensures item { slice_get self.now i ≡ Some result.now }
        ensures form { IsWellFormed result.now.form }
    {
        &self.items[i]
    }

    /// The tokens as a slice.
    pub fn as_slice(&self) -> &[Token]
        ensures items { result.now ≡ self.now }
        ensures tokens { IsTokenList self.now }
    {
        self.items.as_slice()
    }
}
