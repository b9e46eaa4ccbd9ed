// Laws of the tokens.

ghost use Rattle.std.specs.Prelude.{◌≡◌, ℕ, List, length};
ghost use Rattle.ps_base.specs.declared.failing.Refusal.{Refusal};
ghost use Rattle.ps_lexer.specs.declared.token.Token.{Token};
ghost use Rattle.ps_lexer.specs.declared.token.Tokens.{Tokens};
ghost use Rattle.ps_lexer.specs.Reading.{Reads, SpansInOrder, tokens};

use ps_base::Fail;

/// Two token lists that read one text are equal.
pub fn one_token_list()
    ensures { (text : List ℕ) (ts us : List Token)
        → Reads text 0 ts (length text) → Reads text 0 us (length text) → ts ≡ us }
{}

/// A text that is refused has no token list: `tokens` gives it no list and its end.
pub fn refused_is_not_read()
    ensures { (text : List ℕ) (r : Refusal) (t : Tokens)
        → tokens text (Err (Fail.Refused r)) → tokens text (Ok t) → ⊥ }
{}

/// A text that is refused has one refusal: one rule, at one place.
pub fn one_refusal()
    ensures { (text : List ℕ) (r q : Refusal)
        → tokens text (Err (Fail.Refused r)) → tokens text (Err (Fail.Refused q)) → r ≡ q }
{}

/// The tokens of a text have their spans in order and within the text, and no two overlap.
pub fn spans_are_in_order()
    ensures { (text : List ℕ) (t : Tokens) → tokens text (Ok t) → SpansInOrder 0 t.list (length text) }
{}
