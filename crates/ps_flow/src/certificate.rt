// A certificate: lines that show that values are SAFEBOOL.

use ps_base::Memory;
use std::alloc::Global;
use std::marker::Model;

/// The most lines that a certificate may have: the number after the last one still fits 32 bits.
pub const MOST_LINES: u32 = u32::MAX - 1;

/// By which rule a line shows that its node is SAFEBOOL.
#[derive(Clone, Copy)]
pub enum LineRule {
    /// The node is a signal of type SAFEBOOL.
    Src,
    /// The node is an AND, and one of its operands is SAFEBOOL (functional enabling, PLCopen TC5).
    And,
    /// The node is an OR, and all its operands are SAFEBOOL (profile).
    Or,
}

/// The lines that a line rests on, by their numbers, counted from 1. Contracts see them as a list of numbers of 32
/// bits.
#[derive(Drop)]
pub struct Premises {
    items: Vec<u32>,
}

impl Model for Premises {
    ghost use Rattle.std.specs.Prelude.{List, ℕ, All, ◌<◌, ◌^◌};

    ghost Value = { List ℕ };

    ghost view = { λ p. p.items.items };

    ghost invariant = { λ p. All (λ n. n < 2 ^ 32) p.items.items };
}

/// One line of a certificate: the node that it speaks of, its rule, and the lines that it rests on.
#[derive(Drop)]
pub struct CertLine {
    pub node: u32,
    pub rule: LineRule,
    pub premises: Premises,
}

/// The lines of a certificate in order, at most `MOST_LINES`. Contracts see them as a list of lines, whose nodes and
/// premises are numbers of 32 bits.
#[derive(Drop)]
pub struct Certificate {
    lines: Vec<CertLine>,
}

impl Model for Certificate {
    ghost use Rattle.std.specs.Prelude.{List};
    ghost use Rattle.ps_flow.specs.declared.certificate.CertLine.{CertLine};
    ghost use Rattle.ps_flow.specs.Lines.{AreLines};

    ghost Value = { List CertLine };

    ghost view = { λ c. c.lines.items };

    ghost invariant = { λ c. AreLines c.lines.items };
}

impl Premises {
    ghost use Rattle.std.specs.Prelude.{◌≡◌, ◌++◌, ◌<◌, ◌^◌, [], ◌∷◌, All, OnOk, OnErr};

    /// No premises. It takes no memory.
    pub fn new(alloc: Global) -> Premises
        ensures { result ≡ [] }
    {
        Premises {
            items: Vec::new(alloc),
        }
    }

    /// One more premise at the end.
    pub fn push(&mut self, line: u32) -> Result<(), Memory>
        ensures ok { OnOk result (self.new ≡ self.old ++ line ∷ []) }
        ensures err { OnErr result (self.new ≡ self.old) }
    {
        self.items.push(line)?;
        Ok(())
    }

    /// What all premises keep: they are numbers of 32 bits. It does nothing.
    pub fn kept(&self)
        ensures { All (λ p. p < 2 ^ 32) self.now }
    {
        let _ = &self.items;
    }

    /// The premises as a slice.
    pub fn as_slice(&self) -> &[u32]
        ensures { result.now ≡ self.now }
    {
        self.items.as_slice()
    }
}

impl CertLine {
    ghost use Rattle.ps_flow.specs.Lines.{IsNumbered};

    /// What every line keeps: its node and its premises are numbers of 32 bits. It does nothing.
    pub fn kept(&self)
        ensures { IsNumbered self.now }
    {
        let _node = self.node;
        self.premises.kept();
    }
}

impl Certificate {
    ghost use Rattle.std.specs.Prelude.{◌≡◌, ◌++◌, ◌<◌, ◌≤◌, [], ◌∷◌, All, OnOk, OnErr, length, take};
    ghost use Rattle.ps_flow.specs.Lines.{IsNumbered};

    /// No lines. It takes no memory.
    pub fn new(alloc: Global) -> Certificate
        ensures { result ≡ [] }
    {
        Certificate {
            lines: Vec::new(alloc),
        }
    }

    /// One more line at the end. The condition is that there is room for its number.
    pub fn push(&mut self, line: CertLine) -> Result<(), Memory>
        requires { length self.old < MOST_LINES }
        ensures ok { OnOk result (self.new ≡ self.old ++ line ∷ []) }
        ensures err { OnErr result (self.new ≡ self.old) }
    {
        line.kept();
        self.lines.push(line)?;
        Ok(())
    }

    /// What every certificate keeps: its nodes and premises are numbers of 32 bits. It does nothing.
    pub fn kept(&self)
        ensures { All IsNumbered self.now }
    {
        let _ = &self.lines;
    }

    /// How many lines there are.
    pub fn len(&self) -> u32
        ensures count { result ≡ length self.now }
        ensures few { result ≤ MOST_LINES }
    {
        self.lines.len() as u32
    }

    /// Leaves the first `count` lines alone.
    pub fn truncate(&mut self, count: u32)
        ensures { self.new ≡ take count self.old }
    {
        self.lines.truncate(count as usize);
    }

    /// The lines as a slice.
    pub fn lines(&self) -> &[CertLine]
        ensures { result.now ≡ self.now }
    {
        self.lines.as_slice()
    }
}
