//! What holds of every value that a page shows.

ghost use Rattle.std.specs.Prelude.{◌≡◌, ◌<◌, ℕ, List, All, IsTrue};
ghost use Rattle.std.specs.List.{list_all};
ghost use Rattle.ps_text.specs.Escaping.{escaped, is_quiet};
ghost use Rattle.ps_text.specs.Lanes.{AreSideBySide, merged, value_at};
ghost use Rattle.ps_text.specs.Unescaping.{unescaped};
ghost use Rattle.ps_text.specs.declared.lanes.Span.{Span};

/// No value breaks out: in what is written of it stands no byte that begins or ends an element or the value of an
/// attribute, and no control byte; `&` stands there, which begins an escape.
pub fn no_value_breaks_out()
    ensures { (value : List ℕ) → All (λ b. b < 256) value → IsTrue (list_all is_quiet (escaped value)) }
{}

/// A reader of the escapes gets the value back that was written, so each `&` is that of an escape.
pub fn values_are_read_back()
    ensures { (value : List ℕ) → All (λ b. b < 256) value → unescaped (escaped value) ≡ value }
{}

/// Where scans that stand side by side are drawn as one, each place of the picture has the value that it had.
pub fn merged_values_stay()
    ensures { (spans : List Span) (place : ℕ) → AreSideBySide spans →
        value_at (merged spans) place ≡ value_at spans place }
{}
