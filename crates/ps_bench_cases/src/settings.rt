// The settings of inputs that words are.

ghost use Rattle.std.specs.Prelude.{◌≡◌};
ghost use Rattle.ps_bench_cases.specs.Words.{setting_said};

use crate::rule::CaseRule;
use ps_bench_names::{Setting, cut, input_named, truth_of};
use ps_model::App;

// The setting that a word is.
pub(crate) fn setting_said(app: &App, word: &[u8]) -> Result<Setting, CaseRule>
    ensures { result ≡ setting_said app.now word.now }
{
    let (name, Some(value)) = cut(word, b'=') else {
        return Err(CaseRule::K1);
    };
    let Some(input) = input_named(app, name) else {
        return Err(CaseRule::K2);
    };
    match truth_of(value) {
        Some(value) => Ok(Setting { input, value }),
        None => Err(CaseRule::K3),
    }
}
