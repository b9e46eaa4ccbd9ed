// Laws of the grammar.

ghost use Rattle.std.specs.Prelude.{◌≡◌, ◌≢◌, ◌++◌, [], ℕ, List, Result};
ghost use Rattle.ps_base.specs.declared.failing.Place.{Place};
ghost use Rattle.ps_base.specs.declared.failing.Refusal.{Refusal};
ghost use Rattle.ps_lexer.specs.declared.token.Token.{Token};
ghost use Rattle.ps_lexer.specs.declared.token.Tokens.{Tokens};
ghost use Rattle.ps_parser.specs.declared.heads.Heads.{Heads};
ghost use Rattle.ps_parser.specs.declared.heads.Heads.TheVariants.{Program};
ghost use Rattle.ps_parser.specs.Names.{IsDottedName};
ghost use Rattle.ps_parser.specs.Symbol.{Symbol};
ghost use Rattle.ps_parser.specs.Tree.{SourceTree};
ghost use Rattle.ps_parser.specs.Spelt.{spelt};
ghost use Rattle.ps_parser.specs.Whole.{IsWhole};
ghost use Rattle.ps_parser.specs.Language.{IsSpelt, IsRefused, Answers};
ghost use Rattle.ps_parser.specs.Parsing.{sources, AnswersFrom};

use ps_base::Fail;

/// Two sources with one spelling are equal, however deep their groups are nested.
pub fn one_spelling()
    ensures { (h : Heads) (s other : SourceTree) → IsWhole IsDottedName s → IsWhole IsDottedName other → spelt h s ≡ spelt h other → s ≡ other }
{}

/// Tokens that are refused are the spelling of no source whose groups are nested at most `MOST_GROUPS` deep.
pub fn refused_or_spelt()
    ensures { (h : Heads) (tokens : List Token) (end : Place) (refusal : Refusal) (s : SourceTree) → IsRefused (sources h) tokens end refusal → IsSpelt (sources h) tokens s → ⊥ }
{}

/// No whole spelling is a proper front of another: a source that begins with the spelling of a source ends with it.
pub fn no_spelling_begins_another()
    ensures { (h : Heads) (s other : SourceTree) (more : List Symbol) → IsWhole IsDottedName s → IsWhole IsDottedName other
        → spelt h other ≡ spelt h s ++ more → more ≡ [] }
{}

/// Tokens have one answer of `parse`: two answers, neither of which is running out of memory, are equal.
pub fn one_answer()
    ensures { (tokens : Tokens) (r q : Result SourceTree Fail) → Answers (sources Program) tokens r → Answers (sources Program) tokens q
        → r ≢ Err Fail.Memory → q ≢ Err Fail.Memory → r ≡ q }
{}

/// From a number on, tokens have one answer of `parse_from`: two answers, neither of which is running out of memory, are
/// equal.
pub fn one_answer_from()
    ensures { (h : Heads) (tokens : Tokens) (at : ℕ) (r q : Result (SourceTree × ℕ) Fail)
        → AnswersFrom h tokens at r → AnswersFrom h tokens at q → r ≢ Err Fail.Memory → q ≢ Err Fail.Memory → r ≡ q }
{}
