// What holds of the words of states.

ghost use Rattle.std.specs.Prelude.{◌≡◌, ℕ, true};
ghost use Rattle.ps_model.specs.Stored.{is_state};
ghost use Rattle.ps_model.specs.declared.kind.Kind.{Kind};
ghost use Rattle.ps_ways.specs.States.{state_words};

/// No two states of a kind have the same words: where the words are the same, the DiagCodes are.
pub fn states_have_words_of_their_own()
    ensures { (kind : Kind) (code other : ℕ) → is_state kind code ≡ true → is_state kind other ≡ true →
        state_words kind code ≡ state_words kind other → code ≡ other }
{}
