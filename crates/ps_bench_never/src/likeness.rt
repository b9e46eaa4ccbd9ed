// Whether two applications have the same inputs and outputs.

ghost use Rattle.std.specs.Prelude.{◌≡◌, ◌+◌, ◌<◌, ℕ, false, length, None, IfSome, IsSome, true};
ghost use Rattle.ps_base.specs.LetterCase.{is_same_name};
ghost use Rattle.ps_model.specs.Network.{declared_count, input_count};
ghost use Rattle.ps_pairs.specs.Promised.{HaveAsMany};
ghost use Rattle.ps_bench_never.specs.Likeness.{AreLike, is_same_signal};

use crate::same_telling::alike;
use ps_model::{App, is_safe};

/// Where the inputs and outputs of two applications are not the same.
#[derive(Clone, Copy)]
pub enum Unlike {
    /// There are not as many inputs.
    Inputs,
    /// There are not as many outputs.
    Outputs,
    /// The input or output with this number has another name, letter case aside, or another type.
    Signal(u16),
}

// Whether two names are the same without letter case.
fn is_same_name(a: &[u8], b: &[u8]) -> bool
    ensures { result ≡ is_same_name a.now b.now }
{
    a.eq_ignore_ascii_case(b)
}

// Whether a signal has the same name and type in both.
fn is_same_signal(app: &App, other: &App, s: u16) -> bool
    requires one { s < declared_count app.now }
    requires two { s < declared_count other.now }
    ensures { result ≡ is_same_signal app.now other.now s }
{
    is_same_name(
        app.signal_name(s).as_bytes(),
        other.signal_name(s).as_bytes(),
    ) && alike(is_safe(app, s), is_safe(other, s))
}

// The first input or output that has not the same name and type in both.
fn first_unlike_signal(app: &App, other: &App) -> Option<u16>
    requires { HaveAsMany app.now other.now }
    ensures none { result ≡ None → (s : ℕ) → s < input_count app.now + length app.now.outputs →
        is_same_signal app.now other.now s ≡ true }
    ensures some { IfSome result (λ s. is_same_signal app.now other.now s ≡ false) }
    ensures within { IfSome result (λ s. s < input_count app.now + length app.now.outputs) }
{
    app.sound();
    for s in 0..app.input_count() + app.output_count() {
        if !is_same_signal(app, other, s) {
            return Some(s);
        }
    }
    None
}

/// Where the inputs and outputs of two applications are first not the same, in the order of their declarations: as many,
/// of the same names, letter case aside, and of the same types. None where they are.
pub fn first_unlike(app: &App, other: &App) -> Option<Unlike>
    ensures none { result ≡ None → AreLike app.now other.now }
    ensures some { IsSome result → ¬ AreLike app.now other.now }
{
    app.sound();
    other.sound();
    if app.input_count() != other.input_count() {
        return Some(Unlike::Inputs);
    }
    if app.output_count() != other.output_count() {
        return Some(Unlike::Outputs);
    }
    match first_unlike_signal(app, other) {
        Some(signal) => Some(Unlike::Signal(signal)),
        None => None,
    }
}
