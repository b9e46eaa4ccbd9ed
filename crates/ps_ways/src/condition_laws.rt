// What holds of the words of conditions.

ghost use Rattle.std.specs.Prelude.{◌≡◌, true};
ghost use Rattle.ps_model.specs.declared.kind.Kind.{Kind};
ghost use Rattle.ps_ways.specs.Distinct.{are_asked, have_words_of_their_own};

/// No two conditions of a kind have the same words.
pub fn conditions_have_words_of_their_own()
    ensures { (kind : Kind) → have_words_of_their_own kind ≡ true }
{}

/// What the guards of a kind ask is among the conditions of the kind.
pub fn what_guards_ask_has_words()
    ensures { (kind : Kind) → are_asked kind ≡ true }
{}
