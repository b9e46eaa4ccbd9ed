// Which of the texts of a call a rule speaks of, and which word names it.

ghost use Rattle.std.specs.Prelude.{◌≡◌, MatchOption};
ghost use Rattle.ps_edge.specs.Spoken.{most_of, named, place_of, spoken_of};

use ps_base::Rule;
use ps_base::limits::{
    LARGEST_CERTIFICATE, LARGEST_SOURCE, LARGEST_TRACE, LONGEST_FAULT_LINE, MOST_FAULT_LINES,
};
use ps_top::Words;

/// The texts that a call is given.
#[derive(Clone, Copy)]
pub(crate) enum Spoken {
    App,
    Cert,
    Faults,
    Trace,
}

impl Spoken {
    /// The text that a rule refuses.
    pub(crate) fn by_rule(rule: Rule) -> Spoken
        ensures { result ≡ spoken_of rule }
    {
        match rule {
            Rule::C1 | Rule::C2 | Rule::O1 | Rule::O2 | Rule::O3 | Rule::O4 | Rule::O5 =>
                Spoken::Cert,
            Rule::F1 | Rule::F2 | Rule::F3 | Rule::F4 | Rule::F5 => Spoken::Faults,
            Rule::T1
            | Rule::T2
            | Rule::T3
            | Rule::T4
            | Rule::T5
            | Rule::T6
            | Rule::T7
            | Rule::T8
            | Rule::T9 => Spoken::Trace,
            _ => Spoken::App,
        }
    }

    /// As many bytes of such a text as its rules look at.
    pub(crate) fn most(self) -> u32
        ensures { result ≡ most_of self }
    {
        match self {
            Spoken::App => LARGEST_SOURCE,
            Spoken::Cert => LARGEST_CERTIFICATE,
            Spoken::Faults => MOST_FAULT_LINES * (LONGEST_FAULT_LINE + 1),
            Spoken::Trace => LARGEST_TRACE,
        }
    }

    /// The place of the name of such a text among the words of a call, counted from 0: every command has it there.
    pub(crate) fn place(self) -> usize
        ensures { result ≡ place_of self }
    {
        match self {
            Spoken::App => 1,
            Spoken::Cert | Spoken::Trace => 2,
            Spoken::Faults => 3,
        }
    }

    /// The word that names such a text, if there is one.
    pub(crate) fn name_in(self, words: &Words) -> Option<&str>
        ensures { MatchOption result (named words.now self ≡ None) (λ name. named words.now self ≡ Some name.now) }
    {
        let place = self.place();
        if place < words.len() {
            Some(words.at(place).as_str())
        } else {
            None
        }
    }
}
