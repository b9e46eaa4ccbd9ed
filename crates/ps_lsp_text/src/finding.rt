// What is found in a text.

ghost use Rattle.std.specs.Prelude.{◌≡◌};
ghost use Rattle.ps_lsp_text.specs.Findings.{is_of_language, parses};

use ps_base::{Bytes, Rule};
use ps_report::rule_name;
use ps_text::Range;

/// Which of the two a finding is.
#[derive(Clone, Copy)]
pub enum What {
    /// A rule refuses the text.
    Refused(Rule),
    /// A note on a text that is accepted.
    Noted,
}

/// What is found at a piece of a text, and what is told of it, in lines.
pub struct Finding {
    pub what: What,
    pub range: Range,
    pub words: Bytes,
}

impl Drop for Finding {
    // One call for whoever owns one, in place of a walk through all that it holds.
    fn drop(self) {
        let Finding {
            what: _,
            range: _,
            words: _,
        } = self;
    }
}

/// All that is found in a text: the refusal by which it is not accepted, and what is found after it, or the notes.
pub struct Findings {
    pub first: Option<Finding>,
    pub more: Vec<Finding>,
}

impl Drop for Findings {
    fn drop(self) {
        let Findings { first: _, more: _ } = self;
    }
}

// Whether a rule is one by which a text is none of the language.
fn is_of_language(rule: Rule) -> bool
    ensures { result ≡ is_of_language rule }
{
    let name = rule_name(rule).as_bytes();
    name.starts_with(b"L") || name.starts_with(b"P")
}

impl Findings {
    /// Whether the text is one of the language: no rule L or P refuses it.
    pub fn parses(&self) -> bool
        ensures { result ≡ parses self.now }
    {
        match &self.first {
            Some(finding) => match finding.what {
                What::Refused(rule) => !is_of_language(rule),
                What::Noted => true,
            },
            None => true,
        }
    }
}
