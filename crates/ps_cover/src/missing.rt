// What was seen, and what was missed.

ghost use Rattle.std.specs.Prelude.{◌≡◌, ◌&&◌, not};
ghost use Rattle.ps_cover.specs.Missing.{of_value};

/// Whether it was missed: it is not excluded, and was not shown.
pub fn is_missed(excluded: bool, shown: bool) -> bool
    ensures { result ≡ (not excluded && not shown) }
{
    !excluded && !shown
}

/// Whether it was seen with a value, where it is known whether it was seen with FALSE, and with TRUE.
pub fn seen_with(value: bool, off: bool, on: bool) -> bool
    ensures { result ≡ of_value value off on }
{
    if value { on } else { off }
}
