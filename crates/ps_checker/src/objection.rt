// What the check of a certificate answers.

use ps_base::Rule;
use std::marker::Model;

/// The first objection to a certificate: its rule, O1 to O5, and a line of the certificate, counted from 1. O4 and O5
/// stand one past the last line.
#[derive(Clone, Copy)]
pub struct Objection {
    pub line: u32,
    pub rule: Rule,
}

/// A certificate that was checked: the number of the application's nodes, and that of the certificate's lines.
/// `check` alone makes one.
#[derive(Drop)]
pub struct Checked {
    nodes: u32,
    lines: u32,
}

impl Model for Checked {
    ghost use Rattle.ps_checker.specs.Counts.{Counts};

    ghost Value = { Counts };

    ghost view = { λ c. record { nodes = c.nodes; lines = c.lines } };
}

impl Checked {
    ghost use Rattle.std.specs.Prelude.{◌≡◌};

    // What was counted.
    pub(crate) fn of(nodes: u32, lines: u32) -> Checked
        ensures { result ≡ record { nodes = nodes; lines = lines } }
    {
        Checked { nodes, lines }
    }

    /// How many nodes the application has.
    pub fn nodes(&self) -> u32
        ensures { result ≡ self.now.nodes }
    {
        self.nodes
    }

    /// How many lines the certificate has.
    pub fn lines(&self) -> u32
        ensures { result ≡ self.now.lines }
    {
        self.lines
    }
}
